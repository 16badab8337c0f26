// Order entry of the three kinds, and cancellation, on a lent floor. Questions are asked by functions that only read.
#![tactic(auto)]

ghost use Rattle.std.specs.Prelude.{◌≡◌, [], ◌≤◌};
ghost use Rattle.market.specs.Limits.{max_lots, max_waiting};
ghost use Rattle.market.specs.Waiting.{index_of};
ghost use Rattle.market.specs.Calls.{cancel as cancelCall, entry_of as entryOf, order as orderCall};
ghost use Rattle.market.specs.Phases.{order_access};
ghost use Rattle.market.specs.Questions.{entry_questions, first_no};
ghost use Rattle.market.specs.Refusals.{number_in};
ghost use Rattle.market.specs.Entry.{left_waiting};
ghost use Rattle.market.specs.Parts.{Carries, Ready};
ghost use Rattle.market.specs.View.{day_of, first_orders};
ghost use Rattle.market.proofs.Known.{RulesOk};
ghost use Rattle.invariant.specs.Standing.{Standing};
ghost use Rattle.matching.specs.Orders.{FewLots};
ghost use Rattle.codes.specs.Numbers.{Numberable};
ghost use Rattle.orders.specs.Entering.{Askable, Enterable, Enters, claim_with, fillable_in, later_questions, open_questions, order_no as orderNo, room_with};
ghost use Rattle.orders.specs.Finding.{Inside, found_at, is_own as ownOrder};

use amounts::{price_sound, within};
use codes::numbered;
use market::{
    Access, Answer, Floor, Kind, LENT_AT_LEAST, MAX_LOTS, MAX_OWN_CODES, MAX_WAITING, Order, Phase,
    Refusal, Rules, Ticket, TimeInForce, lots_of, unnumbered, with_lots,
};
use matching::{fill, fitting_lots};
use phases::admits;
use waiting::{append, block_need, covers, free_need, leave};

// The order before it is numbered, which suffices for questions 14 and 15: neither need nor fit reads code or arrival.
// Participant and ticket stay two: a group has one participant for all its tickets. Lots come as a host gives them.
pub fn claim_of(participant: u64, member: Ticket) -> Order
    requires { member.lots ≤ max_lots }
    ensures { result ≡ claim_with participant member }
{
    let kind = Kind::Kept(member.price);
    unnumbered(participant, member.side, member.security, member.lots, kind)
}

// The order as it enters, under the next numbers.
pub fn entry_of(floor: &Floor, rules: &Rules, participant: u64, member: Ticket) -> Order
    requires { Numberable rules.now.participants floor.now.codes participant × (member.lots ≤ max_lots) }
    ensures { result ≡ entryOf (day_of rules.now floor.now) participant member }
{
    let claim = claim_of(participant, member);
    numbered(rules.participants, &floor.codes, claim)
}

// Only a kept order may come to wait.
fn has_room(count: usize, force: TimeInForce) -> bool
    ensures { result ≡ room_with force count }
{
    match force {
        TimeInForce::Kept => count < MAX_WAITING as usize,
        _ => true,
    }
}

// Question 15.
pub fn is_fillable(waiting: &[Order], force: TimeInForce, entry: Order) -> bool
    requires { FewLots waiting.now }
    ensures { result ≡ fillable_in force waiting.now entry }
{
    match force {
        TimeInForce::FillOrKill => lots_of(entry) <= fitting_lots(waiting, entry),
        _ => true,
    }
}

// An order as a call that question 6 is asked of, each kind a call of its own.
pub fn access_of(force: TimeInForce) -> Access
    ensures { result ≡ order_access force }
{
    match force {
        TimeInForce::Kept => Access::Kept,
        TimeInForce::ImmediateOrCancel => Access::ImmediateOrCancel,
        TimeInForce::FillOrKill => Access::FillOrKill,
    }
}

// The first "no" of questions 4 to 7, which orders of all kinds and offers are asked. Whether the phase admits the call is asked
// by the caller.
pub fn early_no(
    rules: &Rules,
    admitted: bool,
    participant: u64,
    security: u64,
    lots: u64,
) -> Result<(), Refusal>
    ensures { number_in result ≡ first_no (open_questions rules.now admitted participant security lots) }
{
    if rules.participants <= participant {
        return Err(Refusal::UnknownParticipant);
    }
    if rules.securities <= security {
        return Err(Refusal::UnknownAsset);
    }
    if !admitted {
        return Err(Refusal::WrongPhase);
    }
    if !within(1, MAX_LOTS, lots) {
        return Err(Refusal::AmountOutOfRange);
    }
    Ok(())
}

// The first "no" of questions 8 and 12 to 14.
fn later_no(
    floor: &Floor,
    rules: &Rules,
    participant: u64,
    ticket: Ticket,
    force: TimeInForce,
) -> Result<(), Refusal>
    requires { Askable (day_of rules.now floor.now) participant ticket }
    ensures { number_in result ≡ first_no (later_questions rules.now floor.now participant ticket force) }
{
    if !price_sound(rules.listing(ticket.security).row, ticket.price) {
        return Err(Refusal::WrongPrice);
    }
    if !has_room(floor.count, force) {
        return Err(Refusal::NoRoom);
    }
    if MAX_OWN_CODES <= floor.codes[participant as usize] {
        return Err(Refusal::NoCodeLeft);
    }
    let claim = claim_of(participant, ticket);
    if !covers(floor, rules, claim) {
        return Err(Refusal::NotCovered);
    }
    Ok(())
}

// The first "no" of questions 4 to 14, which read no waiting order. Question 6 is asked of `access`: an order of its kind, or a
// member of a group.
pub fn order_no(
    floor: &Floor,
    rules: &Rules,
    participant: u64,
    ticket: Ticket,
    access: Access,
    force: TimeInForce,
) -> Result<(), Refusal>
    requires { RulesOk rules.now }
    ensures { number_in result ≡ first_no (entry_questions (day_of rules.now floor.now) participant ticket access force) }
{
    let admitted = admits(floor.phase, access);
    early_no(rules, admitted, participant, ticket.security, ticket.lots)?;
    later_no(floor, rules, participant, ticket, force)
}

// The first "no" of questions 4 to 15.
pub fn refusal_of(
    floor: &Floor,
    rules: &Rules,
    participant: u64,
    ticket: Ticket,
    access: Access,
    force: TimeInForce,
) -> Result<(), Refusal>
    requires { Standing (day_of rules.now floor.now) }
    ensures { number_in result ≡ orderNo (day_of rules.now floor.now) participant ticket access force }
{
    order_no(floor, rules, participant, ticket, access, force)?;
    let claim = claim_of(participant, ticket);
    if !is_fillable(&floor.orders[..floor.count], force, claim) {
        return Err(Refusal::NotFillable);
    }
    Ok(())
}

fn left_waiting(force: TimeInForce, rest: Order) -> u64
    ensures { result ≡ left_waiting force rest }
{
    match force {
        TimeInForce::Kept => lots_of(rest),
        _ => 0,
    }
}

// The entry of an order whose questions are all answered "yes": its need is blocked, its code is given and it is matched, and
// what is left of it waits or is freed.
pub fn enter(
    floor: &mut Floor,
    rules: &Rules,
    entry: Order,
    force: TimeInForce,
    trades: &mut [u64],
) -> Answer
    requires { Enterable rules.now floor.old entry force trades.old }
    ensures { Enters rules.now floor.old entry force trades.old floor.new trades.new result }
{
    block_need(floor, rules, entry);
    let matched = fill(floor, rules, entry, trades);
    let rest = with_lots(entry, matched.left);
    let waits = left_waiting(force, rest);
    // Of a kept order this frees the need of no lots.
    free_need(floor, rules, with_lots(rest, matched.left - waits));
    if 0 < waits {
        floor.orders[floor.count] = rest;
        floor.count += 1;
    }
    let filled = lots_of(entry) - matched.left;
    Answer::Done(entry.code, filled, waits, matched.trades)
}

// An order of any of the three kinds. While collecting a kept one only waits.
pub fn order(
    floor: &mut Floor,
    rules: &Rules,
    participant: u64,
    ticket: Ticket,
    force: TimeInForce,
    trades: &mut [u64],
) -> Answer
    requires { Ready rules.now floor.old }
    ensures { Carries rules.now floor.old trades.old (orderCall participant ticket force) floor.new trades.new result }
{
    if trades.len() < LENT_AT_LEAST {
        return Answer::from(Refusal::ListTooShort);
    }
    let asked = refusal_of(floor, rules, participant, ticket, access_of(force), force);
    if let Err(refusal) = asked {
        return Answer::from(refusal);
    }
    let entry = entry_of(floor, rules, participant, ticket);
    if floor.phase == Phase::Collecting {
        return append(floor, rules, entry);
    }
    enter(floor, rules, entry, force, trades)
}

fn is_own(participant: u64, code: u64, o: &Order) -> bool
    ensures { result ≡ ownOrder participant code o.now }
{
    participant == o.participant && code == o.code
}

// The place of the participant's first waiting order with that code.
pub fn find(floor: &Floor, participant: u64, code: u64) -> Option<usize>
    requires { floor.now.count ≤ max_waiting }
    ensures place { found_at result ≡ index_of participant code (first_orders floor.now.count floor.now.orders) }
    ensures inside { Inside floor.now.count result }
{
    for (i, o) in floor.orders[..floor.count].iter().enumerate() {
        if is_own(participant, code, o) {
            return Some(i);
        }
    }
    None
}

// The order gives its place up, and its need is freed.
pub fn cancel(floor: &mut Floor, rules: &Rules, participant: u64, code: u64) -> Answer
    requires { Ready rules.now floor.old }
    ensures { Carries rules.now floor.old [] (cancelCall participant code) floor.new [] result }
{
    if rules.participants <= participant {
        return Answer::from(Refusal::UnknownParticipant);
    }
    let Some(at) = find(floor, participant, code) else {
        return Answer::from(Refusal::NotFound);
    };
    leave(floor, rules, at);
    Answer::Done(code, 0, 0, 0)
}
