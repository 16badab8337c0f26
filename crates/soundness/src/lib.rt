// Is a state sound? Asked of any values at all, before anything is reckoned from them.
#![tactic(auto)]

ghost use Rattle.std.specs.Prelude.{◌≡◌, true, ◌+◌, ◌<◌, ◌≤◌, get_or, replicate};
ghost use Rattle.std.specs.List.{list_all, zip};
ghost use Rattle.market.specs.Limits.{columns as allColumns, max_codes, max_own_codes, max_participants, max_securities, cells};
ghost use Rattle.market.specs.Tests.{◌and◌, ◌≤?◌, all_below, known};
ghost use Rattle.market.specs.Day.{no_security, turnover_at};
ghost use Rattle.market.specs.View.{day_of};
ghost use Rattle.market.specs.Sound.{counts_sound, kind_sound, lots_sound, nominal_sound, row_sound, security_sound, sound};
ghost use Rattle.market.specs.Sound.{offer_sound, turnover_sound};
ghost use Rattle.soundness.specs.Parts.{Checked, column_sound, need_cell_for, orderly};

use amounts::{account_in, cell_of, need_of, price_sound, within};
use codes::given;
use market::{
    Asset, Floor, Kind, Listing, MAX_CURRENCIES, MAX_LOT, MAX_LOTS, MAX_NOMINAL, MAX_OFFER_RATE,
    MAX_OWN_CODES, MAX_PARTICIPANTS, MAX_PIECES, MAX_PRICE, MAX_RATE, MAX_SECURITIES, MAX_STEP,
    MAX_TERM, MAX_WAITING, MIN_NOMINAL, MONEY_LIMIT, Order, PIECES_LIMIT, Phase, Rules, Security,
    Side, Turnover, lots_of,
};
use phases::kept_in;

// Needs of pieces stand this many cells behind those of money.
const CELLS: usize = 272;

pub fn counts_sound(participants: u64, currencies: u64, securities: u64) -> bool
    ensures { result ≡ counts_sound participants currencies securities }
{
    if !within(1, MAX_PARTICIPANTS, participants) {
        return false;
    }
    if !within(1, MAX_CURRENCIES, currencies) {
        return false;
    }
    within(1, MAX_SECURITIES, securities)
}

pub fn row_sound(currencies: u64, row: Security) -> bool
    ensures { result ≡ row_sound currencies row }
{
    if currencies <= row.currency {
        return false;
    }
    if !within(1, MAX_LOT, row.lot) {
        return false;
    }
    within(1, MAX_STEP, row.step)
}

// In range, or 0 for none.
fn nominal_sound(row: Security) -> bool
    ensures { result ≡ nominal_sound row }
{
    if row.nominal == 0 {
        return true;
    }
    within(MIN_NOMINAL, MAX_NOMINAL, row.nominal)
}

fn security_sound(currencies: u64, row: Security) -> bool
    ensures { result ≡ security_sound currencies row }
{
    if !row_sound(currencies, row) {
        return false;
    }
    nominal_sound(row)
}

fn each_row_sound(currencies: u64, rows: &[Security]) -> bool
    ensures { result ≡ list_all (security_sound currencies) rows.now }
{
    rows.iter().all(|row| security_sound(currencies, *row))
}

// Every security in range, its nominal too.
pub fn table_sound(currencies: u64, securities: u64, table: [Security; 16]) -> bool
    requires { securities ≤ max_securities }
    ensures { result ≡ all_below securities (λ s. security_sound currencies (get_or table s no_security)) }
{
    each_row_sound(currencies, &table[..securities as usize])
}

fn turnover_sound(codes: u64, turnover: Turnover) -> bool
    requires { codes ≤ max_codes }
    ensures { result ≡ turnover_sound codes turnover }
{
    if MAX_PIECES * codes < turnover.pieces {
        return false;
    }
    if turnover.value < turnover.pieces {
        return false;
    }
    turnover.value <= MAX_PRICE * turnover.pieces
}

fn each_turnover_sound(codes: u64, turnovers: &[Turnover]) -> bool
    requires { codes ≤ max_codes }
    ensures { result ≡ list_all (turnover_sound codes) turnovers.now }
{
    turnovers
        .iter()
        .all(|turnover| turnover_sound(codes, *turnover))
}

// Q and T of every security in range. The array goes by value: behind a reference no proof knows the length of one of structs.
fn turnovers_sound(codes: u64, securities: u64, turnovers: [Turnover; 16]) -> bool
    requires { (codes ≤ max_codes) × (securities ≤ max_securities) }
    ensures { result ≡ all_below securities (λ s. turnover_sound codes (turnover_at turnovers s)) }
{
    each_turnover_sound(codes, &turnovers[..securities as usize])
}

// Is each participant's count of codes within the limit?
fn codes_sound(codes: &[u64]) -> bool
    ensures { result ≡ list_all (λ own. own ≤? max_own_codes) codes.now }
{
    codes.iter().all(|own| *own <= MAX_OWN_CODES)
}

// Was each participant's last code given to him?
fn lasts_given(lasts: &[u64], codes: &[u64]) -> bool
    ensures { result ≡ list_all (λ pair. pair.0 ≤? pair.1) (zip lasts.now codes.now) }
{
    lasts.iter().zip(codes).all(|(last, own)| *last <= *own)
}

// May a repurchase offer wait in this phase, at this price, rate and term?
fn offer_sound(phase: Phase, row: Security, price: u64, rate: u64, term: u64) -> bool
    requires { 0 < row.step }
    ensures { result ≡ offer_sound phase row price rate term }
{
    phase == Phase::Open
        && price_sound(row, price)
        && rate <= MAX_OFFER_RATE
        && within(1, MAX_TERM, term)
}

// May an order of this kind wait in this phase, at its price, in a security so traded?
fn kind_sound(phase: Phase, row: Security, turnover: Turnover, kind: Kind) -> bool
    requires { 0 < row.step }
    ensures { result ≡ kind_sound phase row turnover kind }
{
    match kind {
        Kind::Kept(price) => kept_in(phase) && price_sound(row, price),
        Kind::Closing => phase == Phase::Closing && 0 < turnover.pieces,
        Kind::Offer(rate, term, price) => {
            offer_sound(phase, row, price, u64::from(rate), u64::from(term))
        }
    }
}

// All of an order but its security, which is known.
fn order_sound(
    participants: u64,
    phase: Phase,
    row: Security,
    turnover: Turnover,
    order: Order,
) -> bool
    requires { 0 < row.step }
    ensures { result ≡ known order.participant participants and lots_sound order.lots
        and kind_sound phase row turnover order.kind }
{
    if participants <= order.participant {
        return false;
    }
    if !within(1, MAX_LOTS, lots_of(order)) {
        return false;
    }
    kind_sound(phase, row, turnover, order.kind)
}

// Where an order's need is added: a buy's money, or a sell's pieces.
fn need_cell(side: Side, participant: u64, currency: u64, security: u64) -> usize
    requires { (participant < allColumns) × (currency < allColumns) × (security < allColumns) }
    ensures { result ≡ need_cell_for side participant currency security }
{
    match side {
        Side::Buy => cell_of(participant, currency),
        Side::Sell => CELLS + cell_of(participant, security),
    }
}

// Is each waiting order sound, do their arrivals rise from 1, up to all codes given at most, and each participant's codes from
// 1, up to his count at most? What each needs is added at its cell in the same pass, so that the orders are read once.
fn orders_sound(rules: &Rules, floor: &Floor, needs: &mut [u64; 544]) -> bool
    requires { (orderly (day_of rules.now floor.now) ≡ true) × (needs.old ≡ replicate (cells + cells) 0) }
    ensures { Checked (day_of rules.now floor.now) result needs.new }
{
    let mut lasts = [0u64; 16];
    let mut last: u64 = 0;
    for i in 0..floor.count {
        let order = floor.orders[i];
        let arrival = u64::from(order.arrival);
        if arrival <= last {
            return false;
        }
        if rules.securities <= order.security {
            return false;
        }
        let row = rules.table[order.security as usize];
        let turnover = floor.turnover[order.security as usize];
        if !order_sound(rules.participants, floor.phase, row, turnover, order) {
            return false;
        }
        let owner = order.participant as usize;
        if order.code <= lasts[owner] {
            return false;
        }
        lasts[owner] = order.code;
        let at = need_cell(order.side, order.participant, row.currency, order.security);
        let listing = Listing {
            row,
            rate: rules.rate,
        };
        needs[at] += need_of(listing, turnover, order);
        last = arrival;
    }
    if given(rules.participants, &floor.codes) < last {
        return false;
    }
    let known = rules.participants as usize;
    lasts_given(&lasts[..known], &floor.codes[..known])
}

// Is what is blocked in this column what is needed, and its total, with the market's account in money, within the limit? No sum
// is made above it.
fn column_sound<'a>(
    asset: Asset,
    participants: u64,
    column: u64,
    limit: u64,
    first: usize,
    positions: &'a [u64; 544],
    needs: &'a [u64; 544],
) -> bool
    requires { (participants ≤ max_participants) × (column < allColumns) × (first ≤ cells) }
    ensures { result ≡ column_sound asset participants limit first positions.now needs.now column }
{
    let mut total: u64 = 0;
    for p in 0..participants {
        let at = cell_of(p, column);
        let free = positions[2 * at];
        let blocked = positions[2 * at + 1];
        if blocked != needs[first + at] {
            return false;
        }
        if limit - total < free {
            return false;
        }
        if limit - total - free < blocked {
            return false;
        }
        total += free + blocked;
    }
    account_in(asset, positions, column) <= limit - total
}

// So of each column.
fn positions_sound<'a>(
    asset: Asset,
    participants: u64,
    columns: u64,
    limit: u64,
    first: usize,
    positions: &'a [u64; 544],
    needs: &'a [u64; 544],
) -> bool
    requires { (participants ≤ max_participants) × (columns ≤ allColumns) × (first ≤ cells) }
    ensures { result ≡ all_below columns (column_sound asset participants limit first positions.now needs.now) }
{
    for column in 0..columns {
        if !column_sound(asset, participants, column, limit, first, positions, needs) {
            return false;
        }
    }
    true
}

// All but the waiting orders and the positions. Each part is asked only where the ones before it hold, which bound what
// it reckons.
fn is_orderly(rules: &Rules, floor: &Floor) -> bool
    ensures { result ≡ orderly (day_of rules.now floor.now) }
{
    if MAX_WAITING < floor.count as u64 {
        return false;
    }
    if !counts_sound(rules.participants, rules.currencies, rules.securities) {
        return false;
    }
    if !table_sound(rules.currencies, rules.securities, rules.table) {
        return false;
    }
    if MAX_RATE < rules.rate {
        return false;
    }
    if !codes_sound(&floor.codes[..rules.participants as usize]) {
        return false;
    }
    turnovers_sound(
        given(rules.participants, &floor.codes),
        rules.securities,
        floor.turnover,
    )
}

// Is the day sound?
pub fn floor_sound(rules: &Rules, floor: &Floor) -> bool
    ensures { result ≡ sound (day_of rules.now floor.now) }
{
    let mut needs = [0u64; 544];
    if !is_orderly(rules, floor) {
        return false;
    }
    if !orders_sound(rules, floor, &mut needs) {
        return false;
    }
    if !positions_sound(
        Asset::Money,
        rules.participants,
        rules.currencies,
        MONEY_LIMIT,
        0,
        &floor.money,
        &needs,
    ) {
        return false;
    }
    positions_sound(
        Asset::Pieces,
        rules.participants,
        rules.securities,
        PIECES_LIMIT,
        CELLS,
        &floor.pieces,
        &needs,
    )
}
