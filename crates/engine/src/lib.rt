// The public calls: the opening, and calls that ask first whether the state is sound (question 1), its records too.
// None has a `requires`; a refusal hands back the very state given.
#![tactic(auto)]

ghost use Rattle.std.specs.Prelude.{◌≡◌, []};
ghost use Rattle.market.specs.declared.Asset.TheVariants.{Money, Pieces};
ghost use Rattle.market.specs.Calls.{no_tickets};
ghost use Rattle.market.specs.Acts.{cancel as cancelCall, closing_order, decrease, end_collecting, end_session};
ghost use Rattle.market.specs.Acts.{increase, linked as linkedCall, new_day, offer, order, second_part, start_closing, start_collecting};
ghost use Rattle.market.specs.LedgerParts.{act_of, call_of};
ghost use Rattle.market.specs.Ledger.{ledger_sound, whole};
ghost use Rattle.market.specs.Contract.{Does, Opens};

use deals::records_sound;
use market::{
    Answer, Call, Dealing, Move, Outcome, Refusal, Rules, Security, Session, Side, State, Ticket,
    TimeInForce,
};
use soundness::floor_sound;

pub fn opening(
    participants: u64,
    currencies: u64,
    securities: u64,
    table: [Security; 16],
    rate: u64,
    date: u64,
) -> Outcome
    ensures { Opens (record { participants = participants; currencies = currencies; securities = securities; table = table; rate = rate }) date result }
{
    opening::opening(
        Rules {
            participants,
            currencies,
            securities,
            table,
            rate,
        },
        date,
    )
}

// The places of a group's members, where there is no group.
fn no_tickets() -> [Ticket; 8]
    ensures { result ≡ no_tickets }
{
    [Ticket {
        side: Side::Buy,
        security: 0,
        price: 0,
        lots: 0,
    }; 8]
}

// Question 1, of the day and of its records.
fn is_sound(s: &State) -> bool
    ensures { result ≡ ledger_sound (whole s.now) }
{
    floor_sound(&s.rules, &s.floor) && records_sound(&s.rules, &s.records)
}

// Any call of a trading day, on the state where it lies: question 1, then the call. A group's members stand beside it; trades
// stand from the start of the lent list on.
pub fn call_in_place(s: &mut State, call: Call, members: &[Ticket; 8], trades: &mut [u64]) -> Answer
    ensures { Does s.old trades.old (call_of call members.now) (record { answer = result; state = s.new }) trades.new }
{
    s.sized();
    if !is_sound(s) {
        return Answer::from(Refusal::Unsound);
    }
    calls::carry_out(&mut s.floor, &s.rules, call, members, trades)
}

// Any act on the records, in the same way.
pub fn deal_in_place(s: &mut State, dealing: Dealing, trades: &mut [u64]) -> Answer
    ensures { Does s.old trades.old (act_of dealing) (record { answer = result; state = s.new }) trades.new }
{
    s.sized();
    if !is_sound(s) {
        return Answer::from(Refusal::Unsound);
    }
    dealings::carry_out(&mut s.floor, &mut s.records, &s.rules, dealing, trades)
}

// The same calls and acts, the state by value.
pub fn call(s: State, call: Call, members: [Ticket; 8], trades: &mut [u64]) -> Outcome
    ensures { Does s trades.old (call_of call members) result trades.new }
{
    let mut state = s;
    let answer = call_in_place(&mut state, call, &members, trades);
    Outcome { answer, state }
}

pub fn deal(s: State, dealing: Dealing, trades: &mut [u64]) -> Outcome
    ensures { Does s trades.old (act_of dealing) result trades.new }
{
    let mut state = s;
    let answer = deal_in_place(&mut state, dealing, trades);
    Outcome { answer, state }
}

// A call that has no members and is lent no list.
fn plain(s: State, c: Call) -> Outcome
    ensures { Does s [] (call_of c no_tickets) result [] }
{
    let mut none = [0u64; 0];
    call(s, c, no_tickets(), &mut none)
}

pub fn increase_money(s: State, participant: u64, currency: u64, amount: u64) -> Outcome
    ensures { Does s [] (increase Money participant currency amount) result [] }
{
    plain(
        s,
        Call::Reserve(Move::IncreaseMoney(participant, currency, amount)),
    )
}

pub fn decrease_money(s: State, participant: u64, currency: u64, amount: u64) -> Outcome
    ensures { Does s [] (decrease Money participant currency amount) result [] }
{
    plain(
        s,
        Call::Reserve(Move::DecreaseMoney(participant, currency, amount)),
    )
}

pub fn increase_pieces(s: State, participant: u64, security: u64, amount: u64) -> Outcome
    ensures { Does s [] (increase Pieces participant security amount) result [] }
{
    plain(
        s,
        Call::Reserve(Move::IncreasePieces(participant, security, amount)),
    )
}

pub fn decrease_pieces(s: State, participant: u64, security: u64, amount: u64) -> Outcome
    ensures { Does s [] (decrease Pieces participant security amount) result [] }
{
    plain(
        s,
        Call::Reserve(Move::DecreasePieces(participant, security, amount)),
    )
}

// The trades stand from the start of the lent list on.
pub fn enter_order(
    s: State,
    participant: u64,
    side: Side,
    security: u64,
    price: u64,
    lots: u64,
    force: TimeInForce,
    trades: &mut [u64],
) -> Outcome
    ensures { Does s trades.old (order participant (record { side = side; security = security; price = price; lots = lots }) force) result trades.new }
{
    let ticket = Ticket {
        side,
        security,
        price,
        lots,
    };
    call(
        s,
        Call::Order(participant, ticket, force),
        no_tickets(),
        trades,
    )
}

pub fn cancel(s: State, participant: u64, code: u64) -> Outcome
    ensures { Does s [] (cancelCall participant code) result [] }
{
    plain(s, Call::Cancel(participant, code))
}

pub fn enter_group(
    s: State,
    participant: u64,
    count: u64,
    members: [Ticket; 8],
    trades: &mut [u64],
) -> Outcome
    ensures { Does s trades.old (linkedCall participant count members) result trades.new }
{
    call(s, Call::Group(participant, count), members, trades)
}

pub fn start_closing(s: State) -> Outcome
    ensures { Does s [] start_closing result [] }
{
    plain(s, Call::Start(Session::Closing))
}

pub fn enter_closing_order(
    s: State,
    participant: u64,
    side: Side,
    security: u64,
    lots: u64,
) -> Outcome
    ensures { Does s [] (closing_order participant side security lots) result [] }
{
    plain(s, Call::ClosingOrder(participant, side, security, lots))
}

// The trades stand from the start of the lent list on.
pub fn end_session(s: State, trades: &mut [u64]) -> Outcome
    ensures { Does s trades.old end_session result trades.new }
{
    call(s, Call::End(Session::Closing), no_tickets(), trades)
}

pub fn start_collecting(s: State) -> Outcome
    ensures { Does s [] start_collecting result [] }
{
    plain(s, Call::Start(Session::Collecting))
}

// The trades stand from the start of the lent list on.
pub fn end_collecting(s: State, trades: &mut [u64]) -> Outcome
    ensures { Does s trades.old end_collecting result trades.new }
{
    call(s, Call::End(Session::Collecting), no_tickets(), trades)
}

// An act that is lent no list.
fn unlent(s: State, dealing: Dealing) -> Outcome
    ensures { Does s [] (act_of dealing) result [] }
{
    let mut none = [0u64; 0];
    deal(s, dealing, &mut none)
}

// A repurchase offer. A first part stands at the start of the lent list.
pub fn enter_offer(
    s: State,
    participant: u64,
    side: Side,
    security: u64,
    price: u64,
    lots: u64,
    rate: u64,
    term: u64,
    trades: &mut [u64],
) -> Outcome
    ensures { Does s trades.old (offer participant (record { side = side; security = security; price = price; lots = lots }) rate term) result trades.new }
{
    let ticket = Ticket {
        side,
        security,
        price,
        lots,
    };
    deal(s, Dealing::Offer(participant, ticket, rate, term), trades)
}

// The second part of the open deal at this place, from 1.
pub fn second_part(s: State, place: u64) -> Outcome
    ensures { Does s [] (second_part place) result [] }
{
    unlent(s, Dealing::SecondPart(place))
}

// A later day begins, of this date.
pub fn new_day(s: State, date: u64) -> Outcome
    ensures { Does s [] (new_day date) result [] }
{
    unlent(s, Dealing::NewDay(date))
}
