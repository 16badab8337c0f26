// Document 01's thin form of order entry, for a host that keeps one state for the day.
#![tactic(auto)]

ghost use Rattle.market.specs.Acts.{order};
ghost use Rattle.market.specs.Contract.{Does};

use market::{Answer, Outcome, Side, State, TimeInForce};

// The new state is written over the one lent; a refusal leaves it as it was.
pub fn enter_order_in_place(
    s: &mut State,
    participant: u64,
    side: Side,
    security: u64,
    price: u64,
    lots: u64,
    force: TimeInForce,
    trades: &mut [u64],
) -> Answer
    ensures { Does s.old trades.old (order participant (record { side = side; security = security; price = price; lots = lots }) force) (record { answer = result; state = s.new }) trades.new }
{
    let out = engine::enter_order(*s, participant, side, security, price, lots, force, trades);
    *s = out.state;
    out.answer
}

// The same with the state by value.
pub fn enter_order(
    s: State,
    participant: u64,
    side: Side,
    security: u64,
    price: u64,
    lots: u64,
    force: TimeInForce,
    trades: &mut [u64],
) -> Outcome
    ensures { Does s trades.old (order participant (record { side = side; security = security; price = price; lots = lots }) force) result trades.new }
{
    let mut kept = s;
    let answer = enter_order_in_place(
        &mut kept,
        participant,
        side,
        security,
        price,
        lots,
        force,
        trades,
    );
    Outcome {
        answer,
        state: kept,
    }
}
