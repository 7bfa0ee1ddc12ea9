// Document 02, 2.8: in which frames the order of the rounds makes a difference.
#![tactic(auto)]

ghost use Rattle.round_order.specs.Order.{OrdersAgree};
ghost use Rattle.round_order.specs.Example.{OrdersDiffer};

// Does nothing. Its contract says in which frames both orders give the same answer, of `frame_of`, which `update` answers by.
pub fn orders_agree()
    ensures { OrdersAgree }
{}

// Does nothing. Its contract has a frame in which they don't.
pub fn orders_differ()
    ensures { OrdersDiffer }
{}
