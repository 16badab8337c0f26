// The lines of the end: positions, phase, turnovers, codes given, waiting orders, the market's account, the records.
ghost use Rattle.std.specs.Prelude.{◌≡◌, ◌+◌, ◌*◌, ◌≤◌, true, length};
ghost use Rattle.market.specs.Limits.{max_currencies, max_participants, max_securities, max_waiting};
ghost use Rattle.script.specs.Rooms.{Adds, Counts, account_room, codes_room, day_room, end_room, kind_room, phase_room, side_room, turnover_room, waits_room};

use super::records::put_records;
use amounts::account_cell;
use market::{
    Floor, Kind, MAX_CURRENCIES, MAX_PARTICIPANTS, MAX_SECURITIES, MAX_WAITING, Order, Phase,
    Rules, Side, State, Turnover, lots_of,
};
use printing::{put_bytes, put_fields, put_positions, put_worded};

fn put_phase(out: &mut [u8], at: usize, phase: Phase) -> usize
    requires { at + phase_room ≤ length out.old }
    ensures { Adds phase_room out.old at out.new result }
{
    match phase {
        Phase::Open => put_bytes(out, at, b"PHASE,open\n"),
        Phase::Collecting => put_bytes(out, at, b"PHASE,collecting\n"),
        Phase::Closing => put_bytes(out, at, b"PHASE,closing\n"),
        Phase::Closed => put_bytes(out, at, b"PHASE,closed\n"),
    }
}

fn put_turnover(out: &mut [u8], at: usize, security: u64, pieces: u64, value: u64) -> usize
    requires { at + turnover_room ≤ length out.old }
    ensures { Adds turnover_room out.old at out.new result }
{
    let numbers = [security, pieces, value];
    put_worded(out, at, b"TURNOVER", &numbers)
}

// One line each, as the three below that print a list: one loop for them would take a line's printing as a closure, with its room.
fn put_turnovers(out: &mut [u8], at: usize, turnovers: &[Turnover]) -> usize
    requires few { length turnovers.now ≤ max_securities }
    requires turnover_room_in_bounds { at + max_securities * turnover_room ≤ length out.old }
    ensures { Adds (max_securities * turnover_room) out.old at out.new result }
{
    let mut end = at;
    for (i, turnover) in turnovers.iter().enumerate() {
        end = put_turnover(out, end, i as u64, turnover.pieces, turnover.value);
    }
    end
}

fn put_side(out: &mut [u8], at: usize, side: Side) -> usize
    requires { at + side_room ≤ length out.old }
    ensures { Adds side_room out.old at out.new result }
{
    match side {
        Side::Buy => put_bytes(out, at, b",B"),
        Side::Sell => put_bytes(out, at, b",L"),
    }
}

// Kind and price; a closing order has none and prints 0. An offer has rate and term besides.
fn put_kind(out: &mut [u8], at: usize, kind: Kind) -> usize
    requires { at + kind_room ≤ length out.old }
    ensures { Adds kind_room out.old at out.new result }
{
    match kind {
        Kind::Kept(price) => put_worded(out, at, b",K", &[price]),
        Kind::Closing => put_bytes(out, at, b",P,0\n"),
        Kind::Offer(rate, term, price) => {
            let numbers = [price, u64::from(rate), u64::from(term)];
            put_worded(out, at, b",OFFER", &numbers)
        }
    }
}

fn put_order(out: &mut [u8], at: usize, order: Order) -> usize
    requires { at + waits_room ≤ length out.old }
    ensures { Adds waits_room out.old at out.new result }
{
    let a = put_bytes(out, at, b"WAITS");
    let b = put_fields(out, a, &[order.participant, order.code]);
    let c = put_side(out, b, order.side);
    let d = put_fields(out, c, &[order.security, lots_of(order)]);
    put_kind(out, d, order.kind)
}

fn put_orders(out: &mut [u8], at: usize, orders: &[Order]) -> usize
    requires few { length orders.now ≤ max_waiting }
    requires waits_room_in_bounds { at + max_waiting * waits_room ≤ length out.old }
    ensures { Adds (max_waiting * waits_room) out.old at out.new result }
{
    let mut end = at;
    for order in orders {
        end = put_order(out, end, *order);
    }
    end
}

// Are the counts of a state within their limits? Those of every sound one are.
fn in_limits(rules: &Rules, count: usize) -> bool
    ensures { result ≡ true → Counts rules.now.participants rules.now.currencies rules.now.securities count }
{
    rules.participants <= MAX_PARTICIPANTS
        && rules.currencies <= MAX_CURRENCIES
        && rules.securities <= MAX_SECURITIES
        && count as u64 <= MAX_WAITING
}

// The market's account in one currency, and in the first `currencies`.
fn put_account(out: &mut [u8], at: usize, currency: u64, amount: u64) -> usize
    requires { at + account_room ≤ length out.old }
    ensures { Adds account_room out.old at out.new result }
{
    let numbers = [currency, amount];
    put_worded(out, at, b"MARKET", &numbers)
}

fn put_accounts(out: &mut [u8], at: usize, money: &[u64; 544], currencies: u64) -> usize
    requires currencies_le_max_currencies { currencies ≤ max_currencies }
    requires account_room_in_bounds { at + max_currencies * account_room ≤ length out.old }
    ensures { Adds (max_currencies * account_room) out.old at out.new result }
{
    let mut end = at;
    for currency in 0..currencies {
        end = put_account(out, end, currency, money[2 * account_cell(currency)]);
    }
    end
}

// Codes given to a participant, and to each one.
fn put_count(out: &mut [u8], at: usize, participant: u64, codes: u64) -> usize
    requires { at + codes_room ≤ length out.old }
    ensures { Adds codes_room out.old at out.new result }
{
    let numbers = [participant, codes];
    put_worded(out, at, b"CODES", &numbers)
}

fn put_codes(out: &mut [u8], at: usize, codes: &[u64]) -> usize
    requires few { length codes.now ≤ max_participants }
    requires codes_room_in_bounds { at + max_participants * codes_room ≤ length out.old }
    ensures { Adds (max_participants * codes_room) out.old at out.new result }
{
    let mut end = at;
    for (i, given) in codes.iter().enumerate() {
        end = put_count(out, end, i as u64, *given);
    }
    end
}

// Positions, phase, turnovers, codes given and waiting orders.
fn put_day(out: &mut [u8], at: usize, rules: &Rules, floor: &Floor) -> usize
    requires counts { Counts rules.now.participants rules.now.currencies rules.now.securities floor.now.count }
    requires day_room_in_bounds { at + day_room ≤ length out.old }
    ensures { Adds day_room out.old at out.new result }
{
    let a = put_positions(
        out,
        at,
        rules.participants,
        rules.currencies,
        rules.securities,
        &floor.money,
        &floor.pieces,
    );
    let b = put_phase(out, a, floor.phase);
    let c = put_turnovers(out, b, &floor.turnover[..rules.securities as usize]);
    let d = put_codes(out, c, &floor.codes[..rules.participants as usize]);
    put_orders(out, d, &floor.orders[..floor.count])
}

pub fn put_end(out: &mut [u8], at: usize, s: &State) -> usize
    requires { at + end_room ≤ length out.old }
    ensures { Adds end_room out.old at out.new result }
{
    let rules = &s.rules;
    let floor = &s.floor;
    if !in_limits(rules, floor.count) {
        return at;
    }
    let end = put_day(out, at, rules, floor);
    let last = put_accounts(out, end, &floor.money, rules.currencies);
    put_records(out, last, rules, &s.records)
}
