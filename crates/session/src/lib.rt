// The sessions outside continuous trading, on a lent floor: their starts, closing orders, their ends.
#![tactic(auto)]

ghost use Rattle.std.specs.Prelude.{◌<◌, ◌≤◌, ◌≡◌, []};
ghost use Rattle.market.specs.Limits.{max_lots, max_securities};
ghost use Rattle.market.specs.Calls.{closing_order};
ghost use Rattle.market.specs.Phases.{admits as admitsCall};
ghost use Rattle.market.specs.Questions.{closing_questions, first_no};
ghost use Rattle.market.specs.Refusals.{number_in};
ghost use Rattle.market.specs.Parts.{Carries, Ready, end_of, start_of};
ghost use Rattle.market.specs.View.{day_of, first_orders};
ghost use Rattle.matching.specs.Orders.{FewLots};
ghost use Rattle.waiting.specs.Claims.{Reckonable};
ghost use Rattle.session.specs.Sessions.{Endable, PairsAll, end_access, next_phase, phase_of, start_access, starts_at, terms_with};
ghost use Rattle.session.specs.Asking.{Askable, closing_claim, later_questions};

use amounts::closing_price;
use auction::price;
use codes::{given, numbered};
use market::{
    Access, Answer, Floor, Kind, LENT_AT_LEAST, MAX_OWN_CODES, MAX_WAITING, Order, Phase, Refusal,
    Rules, Session, Side, unnumbered,
};
use orders::early_no;
use pairing::{Tally, free_all, pair_all};
use phases::admits;
use waiting::{append, covers};

// Which orders meet, and at which price.
#[derive(Clone, Copy)]
struct Terms {
    limit: Kind,
    price: u64,
}

// Question 21: collecting starts only where no code has been given.
fn starts_at(session: Session, codes: u64) -> bool
    ensures { result ≡ starts_at session codes }
{
    match session {
        Session::Closing => true,
        Session::Collecting => codes == 0,
    }
}

// The phase that a session is.
fn phase_of(session: Session) -> Phase
    ensures { result ≡ phase_of session }
{
    match session {
        Session::Closing => Phase::Closing,
        Session::Collecting => Phase::Collecting,
    }
}

// Question 6 of its start and of its end.
fn admits_start(phase: Phase, session: Session) -> bool
    ensures { result ≡ admitsCall phase (start_access session) }
{
    match session {
        Session::Closing => admits(phase, Access::StartClosing),
        Session::Collecting => admits(phase, Access::StartCollecting),
    }
}

fn admits_end(phase: Phase, session: Session) -> bool
    ensures { result ≡ admitsCall phase (end_access session) }
{
    match session {
        Session::Closing => admits(phase, Access::EndSession),
        Session::Collecting => admits(phase, Access::EndCollecting),
    }
}

// The day is closed, or continuous trading begins.
fn next_phase(session: Session) -> Phase
    ensures { result ≡ next_phase session }
{
    match session {
        Session::Closing => Phase::Closed,
        Session::Collecting => Phase::Open,
    }
}

// The terms in a security when its turn comes; the trades before it in other securities don't move them.
fn terms_for(session: Session, floor: &Floor, security: u64) -> Terms
    requires { FewLots (first_orders floor.now.count floor.now.orders) × (security < max_securities) }
    ensures { record { limit = result.limit; price = result.price } ≡ terms_with session floor.now security }
{
    match session {
        Session::Closing => Terms {
            limit: Kind::Closing,
            price: closing_price(floor.turnover[security as usize]),
        },
        Session::Collecting => {
            let price = price(&floor.orders[..floor.count], security);
            Terms {
                limit: Kind::Kept(price),
                price,
            }
        }
    }
}

// Security by security, under the terms of the session.
fn pair_securities(session: Session, floor: &mut Floor, rules: &Rules, trades: &mut [u64]) -> Tally
    requires { Endable session rules.now floor.old trades.old }
    ensures { PairsAll session rules.now floor.old trades.old floor.new trades.new result }
{
    let mut tally = Tally { lots: 0, trades: 0 };
    for security in 0..rules.securities {
        let terms = terms_for(session, floor, security);
        pair_all(
            floor,
            rules,
            security,
            terms.limit,
            terms.price,
            trades,
            &mut tally,
        );
    }
    tally
}

// A closing order before it is numbered, which suffices for question 14: no need reads code or arrival. It has no price.
fn closing_claim(participant: u64, side: Side, security: u64, lots: u64) -> Order
    requires { lots ≤ max_lots }
    ensures { result ≡ closing_claim participant side security lots }
{
    unnumbered(participant, side, security, lots, Kind::Closing)
}

// The first "no" of questions 11 to 14.
fn later_no(floor: &Floor, rules: &Rules, o: Order) -> Result<(), Refusal>
    requires { Reckonable (day_of rules.now floor.now) o }
    ensures { number_in result ≡ first_no (later_questions rules.now floor.now o) }
{
    if floor.turnover[o.security as usize].pieces == 0 {
        return Err(Refusal::NothingTraded);
    }
    if MAX_WAITING as usize <= floor.count {
        return Err(Refusal::NoRoom);
    }
    if MAX_OWN_CODES <= floor.codes[o.participant as usize] {
        return Err(Refusal::NoCodeLeft);
    }
    if !covers(floor, rules, o) {
        return Err(Refusal::NotCovered);
    }
    Ok(())
}

// The first "no" of a closing order's questions, which read no waiting order.
pub fn closing_no(
    floor: &Floor,
    rules: &Rules,
    participant: u64,
    side: Side,
    security: u64,
    lots: u64,
) -> Result<(), Refusal>
    requires { Askable rules.now floor.now }
    ensures { number_in result ≡ first_no (closing_questions (day_of rules.now floor.now) participant side security lots) }
{
    let admitted = admits(floor.phase, Access::ClosingOrder);
    early_no(rules, admitted, participant, security, lots)?;
    let claim = closing_claim(participant, side, security, lots);
    later_no(floor, rules, claim)
}

// A session begins, and all waiting orders come off. Before an auction none waits, since no code has been given.
pub fn start(session: Session, floor: &mut Floor, rules: &Rules) -> Answer
    requires { Ready rules.now floor.old }
    ensures { Carries rules.now floor.old [] (start_of session) floor.new [] result }
{
    if !admits_start(floor.phase, session) {
        return Answer::from(Refusal::WrongPhase);
    }
    if !starts_at(session, given(rules.participants, &floor.codes)) {
        return Answer::from(Refusal::CodesGiven);
    }
    free_all(floor, rules);
    floor.phase = phase_of(session);
    Answer::Done(0, 0, 0, 0)
}

// A closing order: its questions, then it only waits.
pub fn enter_closing_order(
    floor: &mut Floor,
    rules: &Rules,
    participant: u64,
    side: Side,
    security: u64,
    lots: u64,
) -> Answer
    requires { Ready rules.now floor.old }
    ensures { Carries rules.now floor.old [] (closing_order participant side security lots) floor.new [] result }
{
    let asked = closing_no(floor, rules, participant, side, security, lots);
    if let Err(refusal) = asked {
        return Answer::from(refusal);
    }
    let claim = closing_claim(participant, side, security, lots);
    let o = numbered(rules.participants, &floor.codes, claim);
    append(floor, rules, o)
}

// Orders are paired under the session's terms, the rest come off, and the next phase begins.
pub fn end(session: Session, floor: &mut Floor, rules: &Rules, trades: &mut [u64]) -> Answer
    requires { Ready rules.now floor.old }
    ensures { Carries rules.now floor.old trades.old (end_of session) floor.new trades.new result }
{
    if trades.len() < LENT_AT_LEAST {
        return Answer::from(Refusal::ListTooShort);
    }
    if !admits_end(floor.phase, session) {
        return Answer::from(Refusal::WrongPhase);
    }
    let tally = pair_securities(session, floor, rules, trades);
    free_all(floor, rules);
    floor.phase = next_phase(session);
    Answer::Done(0, tally.lots, 0, tally.trades as u64)
}
