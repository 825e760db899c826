//! The laws of what mode analysis answers. Each is the contract of a function that does nothing.
ghost use Rattle.laws_modes.specs.ChosenNodes.{SomeAgree};
ghost use Rattle.laws_modes.specs.OrdersNamed.{OrdersAreNamed};

use laws_order::laws::some_test_tells;

/// What an order of a goal names is there.
pub fn orders_are_named()
    ensures { OrdersAreNamed }
{}

/// Some functions that look for nodes agree with what is there.
pub fn some_agree()
    ensures { SomeAgree }
{
    some_test_tells()
}
