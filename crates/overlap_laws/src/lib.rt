// The laws of the overlap of two boxes. Document 02, 2.9.
#![tactic(auto)]

ghost use Rattle.overlap_laws.specs.Laws.{OverlapLaws};

// Does nothing. Its contract says the laws, of `overlap_of`, which `pair::overlap` returns.
pub fn overlap_laws()
    ensures { OverlapLaws }
{}
