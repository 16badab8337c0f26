// The acts on deals (T-06): a repurchase offer, the second part of a deal, a new day; and their one dispatch, on a lent floor and
// lent records. Questions are asked by functions that only read.
#![tactic(auto)]

ghost use Rattle.std.specs.Prelude.{◌≡◌, true, [], ◌∷◌, ◌<◌, ◌≤◌};
ghost use Rattle.market.specs.Limits.{max_deals};
ghost use Rattle.market.specs.View.{day_of};
ghost use Rattle.market.specs.Positions.{change, draw as drawing, receive as receiving};
ghost use Rattle.market.specs.Answers.{numbers_of};
ghost use Rattle.market.specs.Questions.{first_no};
ghost use Rattle.market.specs.Refusals.{number_in};
ghost use Rattle.market.specs.Offers.{offer_of as offerOf};
ghost use Rattle.market.specs.Deals.{deal_sound};
ghost use Rattle.market.specs.LedgerParts.{CarriesAct, ReadyLedger, act_of};
ghost use Rattle.market.proofs.Known.{RulesOk};
ghost use Rattle.invariant.specs.Standing.{Standing};
ghost use Rattle.codes.specs.Numbers.{Numberable};
ghost use Rattle.orders.specs.Entering.{Askable};
ghost use Rattle.dealings.specs.Asking.{Accepted, Narrow, loan_questions, offer_claim, offer_no, proposed};
ghost use Rattle.dealings.specs.Recording.{Adds, Readable, deal_in, deals_in};
ghost use Rattle.dealings.specs.Second.{Ends, Handable, NewDays, Payable, Pays, SecondParts, paid, part_of, part_questions};

use amounts::{cell_of, pieces_of, price_sound, sum_for, within};
use calendar::second_sum;
use codes::numbered;
use deals::{loan_sound, term_sound};
use market::{
    Access, Answer, Deal, Dealing, Floor, Kind, LAST_DAY, LENT_AT_LEAST, MAX_DEALS, MAX_OWN_CODES,
    MAX_WAITING, Order, Phase, Records, Refusal, Rules, Ticket, Turnover, unnumbered,
};
use offers::enter;
use orders::early_no;
use phases::admits;
use positions::{draw, free_of, receive};
use waiting::covers;

// A repurchase offer as it is called.
#[derive(Clone, Copy)]
struct Proposal {
    participant: u64,
    ticket: Ticket,
    rate: u64,
    term: u64,
}

// What the second part of a deal moves, between whom, and from which day on.
#[derive(Clone, Copy)]
pub struct Part {
    pub buyer: u64,
    pub seller: u64,
    pub security: u64,
    pub currency: u64,
    pub due: u64,
    pub pieces: u64,
    pub sum: u64,
}

// The offer before it is numbered, which suffices for question 14: no need reads code or arrival.
fn offer_claim(proposal: Proposal) -> Order
    requires { Narrow proposal }
    ensures { result ≡ offer_claim proposal }
{
    let ticket = proposal.ticket;
    let kind = Kind::Offer(proposal.rate as u16, proposal.term as u16, ticket.price);
    unnumbered(
        proposal.participant,
        ticket.side,
        ticket.security,
        ticket.lots,
        kind,
    )
}

// The offer as it enters, under the next numbers.
fn offer_of(floor: &Floor, rules: &Rules, proposal: Proposal) -> Order
    requires { Numberable rules.now.participants floor.now.codes proposal.participant × Narrow proposal }
    ensures { result ≡ offerOf (day_of rules.now floor.now) proposal.participant proposal.ticket proposal.rate proposal.term }
{
    numbered(rules.participants, &floor.codes, offer_claim(proposal))
}

// The first "no" of questions 8, 24, 25, 12, 26, 13 and 14, in this order.
fn later_no(
    floor: &Floor,
    records: &Records,
    rules: &Rules,
    proposal: Proposal,
) -> Result<(), Refusal>
    requires { Askable (day_of rules.now floor.now) proposal.participant proposal.ticket }
    ensures { number_in result ≡ first_no (loan_questions rules.now floor.now records.now proposal) }
{
    let ticket = proposal.ticket;
    let row = rules.listing(ticket.security).row;
    if !price_sound(row, ticket.price) {
        return Err(Refusal::WrongPrice);
    }
    if !term_sound(records.date, proposal.term) {
        return Err(Refusal::DayOutOfRange);
    }
    if !loan_sound(row, ticket.price, ticket.lots, proposal.rate) {
        return Err(Refusal::LoanOutOfRange);
    }
    if MAX_WAITING as usize <= floor.count {
        return Err(Refusal::NoRoom);
    }
    if MAX_DEALS as usize <= records.count {
        return Err(Refusal::NoRoomForDeals);
    }
    if MAX_OWN_CODES <= floor.codes[proposal.participant as usize] {
        return Err(Refusal::NoCodeLeft);
    }
    let claim = offer_claim(proposal);
    if !covers(floor, rules, claim) {
        return Err(Refusal::NotCovered);
    }
    Ok(())
}

// The first "no" of an offer's questions from 4 on.
fn offer_no(
    floor: &Floor,
    records: &Records,
    rules: &Rules,
    proposal: Proposal,
) -> Result<(), Refusal>
    requires { Standing (day_of rules.now floor.now) }
    ensures { number_in result ≡ offer_no rules.now floor.now records.now proposal }
{
    let ticket = proposal.ticket;
    let admitted = admits(floor.phase, Access::Offer);
    early_no(
        rules,
        admitted,
        proposal.participant,
        ticket.security,
        ticket.lots,
    )?;
    later_no(floor, records, rules, proposal)
}

// The deal that the lent list's first trade opens on this date. Of the proposal it takes rate and term alone, as the definition.
fn deal_in(date: u64, rate: u64, term: u64, trades: &[u64]) -> Deal
    requires { Readable date rate term trades.now }
    ensures { result ≡ deal_in date rate term trades.now }
{
    Deal {
        price: trades[5] as u32,
        first: date as u32,
        lots: trades[6] as u16,
        rate: rate as u16,
        term: term as u16,
        buyer: trades[2] as u8,
        seller: trades[3] as u8,
        security: trades[4] as u8,
    }
}

// A deal more, the last.
fn with_deal(records: &mut Records, deal: Deal)
    requires { records.old.count < max_deals }
    ensures { Adds records.old (deal ∷ []) records.new }
{
    records.deals[records.count] = deal;
    records.count += 1;
}

// The trades that an answer counts.
fn made_in(answer: Answer) -> u64
    ensures { result ≡ (numbers_of answer).trades }
{
    match answer {
        Answer::Done(_, _, _, trades) => trades,
        _ => 0,
    }
}

// The records once an offer has entered: where it made a trade, a first part, the deal of it goes last.
fn recorded(records: &mut Records, made: u64, rate: u64, term: u64, trades: &[u64])
    requires { (records.old.count < max_deals) × (0 < made → Readable records.old.date rate term trades.now) }
    ensures { Adds records.old (deals_in made records.old.date rate term trades.now) records.new }
{
    if made == 0 {
        return;
    }
    let deal = deal_in(records.date, rate, term, trades);
    with_deal(records, deal);
}

// An offer whose questions are all answered "yes": it enters the day, and where it met another their deal goes last.
fn entered(
    floor: &mut Floor,
    records: &mut Records,
    rules: &Rules,
    proposal: Proposal,
    trades: &mut [u64],
) -> Answer
    requires { Accepted rules.now floor.old records.old proposal trades.old }
    ensures { CarriesAct rules.now floor.old records.old trades.old (proposed proposal) floor.new records.new trades.new result }
{
    let entry = offer_of(floor, rules, proposal);
    let answer = enter(floor, rules, entry, trades);
    let made = made_in(answer);
    recorded(records, made, proposal.rate, proposal.term, trades);
    answer
}

// A repurchase offer.
fn offer(
    floor: &mut Floor,
    records: &mut Records,
    rules: &Rules,
    proposal: Proposal,
    trades: &mut [u64],
) -> Answer
    requires { ReadyLedger rules.now floor.old records.old }
    ensures { CarriesAct rules.now floor.old records.old trades.old (proposed proposal) floor.new records.new trades.new result }
{
    if trades.len() < LENT_AT_LEAST {
        return Answer::from(Refusal::ListTooShort);
    }
    if let Err(refusal) = offer_no(floor, records, rules, proposal) {
        return Answer::from(refusal);
    }
    entered(floor, records, rules, proposal, trades)
}

// What the second part of a deal comes to.
pub fn part_of(rules: &Rules, deal: Deal) -> Part
    requires { RulesOk rules.now × (deal_sound rules.now deal ≡ true) }
    ensures { result ≡ part_of rules.now deal }
{
    let security = u64::from(deal.security);
    let row = rules.table[security as usize];
    let lots = u64::from(deal.lots);
    let first = u64::from(deal.first);
    let term = u64::from(deal.term);
    let sum = sum_for(row, u64::from(deal.price), lots);
    Part {
        buyer: u64::from(deal.buyer),
        seller: u64::from(deal.seller),
        security,
        currency: row.currency,
        due: first + term,
        pieces: pieces_of(row, lots),
        sum: second_sum(sum, u64::from(deal.rate), first, term),
    }
}

// The first "no" of questions 24 and 14.
fn part_no(floor: &Floor, records: &Records, part: Part) -> Result<(), Refusal>
    requires { Payable part }
    ensures { number_in result ≡ first_no (part_questions floor.now records.now part) }
{
    if records.date < part.due {
        return Err(Refusal::DayOutOfRange);
    }
    if free_of(&floor.pieces, cell_of(part.buyer, part.security)) < part.pieces {
        return Err(Refusal::NotCovered);
    }
    if free_of(&floor.money, cell_of(part.seller, part.currency)) < part.sum {
        return Err(Refusal::NotCovered);
    }
    Ok(())
}

// A free amount goes to another, who may be the same.
fn hand(positions: &mut [u64; 544], from: usize, to: usize, amount: u64)
    requires { Handable positions.old from to amount }
    ensures { positions.new ≡ change (change positions.old from (drawing amount)) to (receiving amount) }
{
    draw(positions, from, amount);
    receive(positions, to, amount);
}

// The pieces go back to the first seller, the second sum to the first buyer.
fn pay(floor: &mut Floor, part: Part)
    requires { Pays part floor.old }
    ensures { floor.new ≡ paid part floor.old }
{
    let holder = cell_of(part.buyer, part.security);
    let taker = cell_of(part.seller, part.security);
    hand(&mut floor.pieces, holder, taker, part.pieces);
    let payer = cell_of(part.seller, part.currency);
    let payee = cell_of(part.buyer, part.currency);
    hand(&mut floor.money, payer, payee, part.sum);
}

// The deal at this place has ended, and those behind it close up.
fn ended(records: &mut Records, at: usize)
    requires { (at < records.old.count) × (records.old.count ≤ max_deals) }
    ensures { Ends records.old at records.new }
{
    let count = records.count;
    records.deals.copy_within(at + 1..count, at);
    records.count = count - 1;
}

fn second_part(floor: &mut Floor, records: &mut Records, rules: &Rules, place: u64) -> Answer
    requires { ReadyLedger rules.now floor.old records.old }
    ensures { SecondParts rules.now floor.old records.old place floor.new records.new result }
{
    if !within(1, records.count as u64, place) {
        return Answer::from(Refusal::NotFound);
    }
    let at = (place - 1) as usize;
    let part = part_of(rules, records.deals[at]);
    if let Err(refusal) = part_no(floor, records, part) {
        return Answer::from(refusal);
    }
    pay(floor, part);
    ended(records, at);
    Answer::Done(0, 0, 0, 0)
}

// A later day begins, open; once closed nothing waits.
fn new_day(floor: &mut Floor, records: &mut Records, date: u64) -> Answer
    ensures { NewDays floor.old records.old date floor.new records.new result }
{
    if !admits(floor.phase, Access::NewDay) {
        return Answer::from(Refusal::WrongPhase);
    }
    if date <= records.date || LAST_DAY < date {
        return Answer::from(Refusal::DayOutOfRange);
    }
    floor.phase = Phase::Open;
    floor.codes = [0; 16];
    floor.turnover = [Turnover {
        pieces: 0,
        value: 0,
    }; 16];
    records.date = date;
    Answer::Done(0, 0, 0, 0)
}

// The one dispatch of acts other than a trading day's calls.
pub fn carry_out(
    floor: &mut Floor,
    records: &mut Records,
    rules: &Rules,
    dealing: Dealing,
    trades: &mut [u64],
) -> Answer
    requires { ReadyLedger rules.now floor.old records.old }
    ensures { CarriesAct rules.now floor.old records.old trades.old (act_of dealing) floor.new records.new trades.new result }
{
    match dealing {
        Dealing::Offer(participant, ticket, rate, term) => {
            let proposal = Proposal {
                participant,
                ticket,
                rate,
                term,
            };
            offer(floor, records, rules, proposal, trades)
        }
        Dealing::SecondPart(place) => second_part(floor, records, rules, place),
        Dealing::NewDay(date) => new_day(floor, records, date),
    }
}
