// The table of tracks on its way through a frame: predicted, given boxes or misses, joined by the newborn, aged. Document 01, item 6.
// Each loop writes its table in place: a table passed by value is copied whole.
#![tactic(auto)]

ghost use Rattle.std.specs.Prelude.{◌≡◌, true, [], ◌++◌, ◌+◌, ◌≤◌, ◌<◌, set};
ghost use Rattle.lists.specs.Lists.{keep, every};
ghost use Rattle.frame.specs.State.{live, state_rules};
ghost use Rattle.frame.specs.Frame.{predicted_tracks, is_young};
ghost use Rattle.objects.specs.Dets.{dets_in};
ghost use Rattle.one_track.specs.OneTrack.{givable};
ghost use Rattle.tracks.specs.Tracks.{tracks_of, tracks_in, given_all, born_of};

use frame::{Settings, Tracked, Tracker};
use object::Detection;
use objects::Dets;

// Up to 64 tracks in birth order; cells past them are blank.
// Stays: fixed memory, and the table goes into the state as it is, whose blank cells `state_of` speaks of.
#[derive(Clone, Copy)]
pub struct Tracks {
    pub count: usize,
    pub table: [Tracked; 64],
}

impl Tracks {
    // No tracks.
    pub fn none() -> Tracks
        ensures { result ≡ tracks_of [] }
    {
        let blank = one_track::blank();
        Tracks {
            count: 0,
            table: [blank; 64],
        }
    }

    // One track more.
    fn push(&mut self, e: Tracked)
        requires { self.old.count < 64 }
        ensures { self.new ≡ record { count = self.old.count + 1; table = set self.old.table self.old.count e } }
    {
        let at = self.count;
        self.table[at] = e;
        self.count = at + 1;
    }

    // The tracks one frame ahead, without the broken ones.
    #[tactic(auto, unfolding(frame::specs::Frame::predicted_tracks))]
    pub fn predicted(t: Tracker) -> Tracks
        requires { state_rules t ≡ true }
        ensures { result ≡ tracks_of (predicted_tracks (live t)) }
    {
        let mut out = Tracks::none();
        for e in &t.table[..t.count] {
            let p = one_track::predict_one(*e);
            if one_track::is_unbroken(p) {
                out.push(p);
            }
        }
        out
    }

    // Each track given what it was granted.
    pub fn given(self, grants: [Option<Detection>; 64], delta_t: u32) -> Tracks
        requires { (self.count ≤ 64) × ((delta_t ≤ 8) × (every givable (tracks_in self) ≡ true)) }
        ensures { result ≡ tracks_of (given_all delta_t (tracks_in self) grants) }
    {
        let mut out = Tracks::none();
        for i in 0..self.count {
            out.push(one_track::give(self.table[i], grants[i], delta_t));
        }
        out
    }

    // The detections that are left are born, under the next ids.
    pub fn born(mut self, left: Dets, issued: u64) -> Tracks
        requires { (self ≡ tracks_of (tracks_in self)) × ((self.count + left.n ≤ 64) × (issued ≤ 64000000)) }
        ensures { result ≡ tracks_of (tracks_in self ++ born_of issued (dets_in left)) }
    {
        let cells = left.cells;
        for i in 0..left.n {
            let d = matching::detection_at(&cells, i);
            self.push(one_track::birth(issued + i as u64, d));
        }
        self
    }

    // The tracks that have not aged out.
    pub fn aged(self, s: Settings) -> Tracks
        requires { self.count ≤ 64 }
        ensures { result ≡ tracks_of (keep (is_young s) (tracks_in self)) }
    {
        let mut out = Tracks::none();
        for e in &self.table[..self.count] {
            if one_track::is_young(s, *e) {
                out.push(*e);
            }
        }
        out
    }
}
