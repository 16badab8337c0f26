// Cases of T-06 that no script can say, run on the engine: records and waiting offers made by hand, each limit from both sides;
// offers, second parts and new days after 62,500 codes of a member, beside 64 deals, and with the largest numbers.
#![tactic(auto)]

use case_states::{
    after, aged, asked, asked_closing, asked_collecting, asked_kind, bond, bought, buy,
    code_and_arrival, counts, day, entered, funded, in_phase, money, numbers, order, position,
    sell, sell_order, table, traded, waiting, with_codes, with_counts_past, with_deals, with_money,
    with_phase, with_pieces, with_unread,
};
use engine::{cancel, enter_offer, increase_money, new_day, opening, second_part, start_closing};
use market::{
    Deal, Kind, Order, Outcome, Phase, Records, Security, Side, State, TimeInForce, Turnover,
};

fn largest_date(rt: &impl Print) {
    let s = after(
        rt,
        b"opening on the largest date: 24",
        opening(2, 2, 2, table(), 0, u64::MAX),
    );
    after(rt, b"its state: 1", increase_money(s, 0, 0, 1));
}

// Repurchase offers, in states made by hand.
fn offers_while_open(rt: &impl Print) {
    asked_kind(
        rt,
        b"an offer at 50 percent for a year, sound",
        Kind::Offer(5000, 365, 95),
    );
    asked_kind(rt, b"an offer off the step: 1", Kind::Offer(300, 7, 96));
    asked_kind(
        rt,
        b"an offer at a rate of 5001: 1",
        Kind::Offer(5001, 7, 95),
    );
    asked_kind(rt, b"an offer for no day: 1", Kind::Offer(300, 0, 95));
    asked_kind(rt, b"an offer for 366 days: 1", Kind::Offer(300, 366, 95));
    asked_kind(
        rt,
        b"an offer at no rate for a day, sound",
        Kind::Offer(0, 1, 95),
    );
}

fn offers_in_other_phases(rt: &impl Print) {
    let offer = Kind::Offer(300, 7, 95);
    asked_collecting(rt, b"an offer while collecting: 1", offer, 10, 950);
    asked_closing(rt, b"an offer while closing: 1", offer, 10, 950);
    asked(
        rt,
        b"an offer when closed: 1",
        in_phase(Phase::Closed, offer, 0, 0),
    );
}

fn asked_buy_offer(rt: &impl Print, label: &[u8], blocked: u64) {
    let mut s = with_codes(with_money(day(), 0, 0, blocked), 0, 4);
    s.floor.orders[0] = Order {
        code: 3,
        participant: 0,
        side: Side::Buy,
        lots: 10,
        arrival: 3,
        security: 0,
        kind: Kind::Offer(300, 7, 95),
    };
    s.floor.count = 1;
    asked(rt, label, s);
}

fn offers_block(rt: &impl Print) {
    asked_buy_offer(rt, b"9500 blocked for an offer to buy, sound", 9500);
    asked_buy_offer(rt, b"a unit more for it: 1", 9501);
}

// Of a waiting offer neither due day nor first sum is asked: the entry that meets it has the same.
fn offers_later(rt: &impl Print) {
    let s = waiting(sell_order(3, 1, 0, 10, Kind::Offer(300, 365, 95)));
    asked(
        rt,
        b"an offer due past the table, sound",
        with_deals(s, 146096, deal(), 0),
    );
    let s = waiting(sell_order(3, 1, 0, 10000, Kind::Offer(300, 7, 1000000)));
    asked(
        rt,
        b"an offer of a larger first sum, sound",
        with_pieces(s, 16, 0, 100000),
    );
}

// A kept order at its price would be met.
fn offer_passed_by(rt: &impl Print) {
    let s = waiting(sell_order(3, 1, 0, 10, Kind::Offer(300, 7, 95)));
    let o = increase_money(s, 0, 0, 1000);
    let label = b"buy 1 at 100 beside an offer at 95";
    traded(rt, label, o.state, 0, buy(0, 100, 1), TimeInForce::Kept);
}

// An open deal: 10 lots of security 0 at 95, at 3 percent from day 20000 on for a week.
fn deal() -> Deal {
    Deal {
        price: 95,
        first: 20000,
        lots: 10,
        rate: 300,
        term: 7,
        buyer: 0,
        seller: 1,
        security: 0,
    }
}

fn asked_date(rt: &impl Print, label: &[u8], date: u64) {
    asked(rt, label, with_deals(day(), date, deal(), 0));
}

fn dates(rt: &impl Print) {
    asked_date(rt, b"the table's last day, sound", 146096);
    asked_date(rt, b"the day after it: 1", 146097);
    asked_date(rt, b"the largest date: 1", u64::MAX);
}

fn asked_names(rt: &impl Print, label: &[u8], buyer: u8, seller: u8, security: u8) {
    let mut x = deal();
    x.buyer = buyer;
    x.seller = seller;
    x.security = security;
    asked(rt, label, with_deals(day(), 20000, x, 1));
}

fn deal_names(rt: &impl Print) {
    asked_names(rt, b"an open deal, sound", 0, 1, 0);
    asked_names(rt, b"a deal with oneself, sound", 1, 1, 1);
    asked_names(rt, b"its buyer unknown: 1", 2, 1, 0);
    asked_names(rt, b"its seller unknown: 1", 0, 2, 0);
    asked_names(rt, b"its security unknown: 1", 0, 1, 2);
}

fn asked_terms(rt: &impl Print, label: &[u8], price: u32, lots: u16, rate: u16, term: u16) {
    let mut x = deal();
    x.price = price;
    x.lots = lots;
    x.rate = rate;
    x.term = term;
    asked(rt, label, with_deals(day(), 20000, x, 1));
}

fn deal_lots(rt: &impl Print) {
    asked_terms(rt, b"a deal of no lots: 1", 95, 0, 300, 7);
    asked_terms(rt, b"of 1 lot, sound", 95, 1, 300, 7);
    asked_terms(rt, b"of 10000 lots, sound", 95, 10000, 300, 7);
    asked_terms(rt, b"of 10001 lots: 1", 95, 10001, 300, 7);
}

fn deal_prices(rt: &impl Print) {
    asked_terms(rt, b"a deal at price 0: 1", 0, 10, 300, 7);
    asked_terms(rt, b"off the step: 1", 96, 10, 300, 7);
    asked_terms(rt, b"at 1000000, sound", 1000000, 10, 300, 7);
    asked_terms(rt, b"above it: 1", 1000005, 10, 300, 7);
}

fn deal_rates(rt: &impl Print) {
    asked_terms(rt, b"a deal at no rate, sound", 95, 10, 0, 7);
    asked_terms(rt, b"at 50 percent, sound", 95, 10, 5000, 7);
    asked_terms(rt, b"at a rate of 5001: 1", 95, 10, 5001, 7);
}

fn deal_terms(rt: &impl Print) {
    asked_terms(rt, b"a deal for no day: 1", 95, 10, 300, 0);
    asked_terms(rt, b"for a day, sound", 95, 10, 300, 1);
    asked_terms(rt, b"for 365 days, sound", 95, 10, 300, 365);
    asked_terms(rt, b"for 366 days: 1", 95, 10, 300, 366);
}

fn asked_days(rt: &impl Print, label: &[u8], date: u64, first: u32) {
    let mut x = deal();
    x.first = first;
    asked(rt, label, with_deals(day(), date, x, 1));
}

fn deal_days(rt: &impl Print) {
    asked_days(rt, b"due on the table's last day, sound", 146096, 146089);
    asked_days(rt, b"due on the day after it: 1", 146096, 146090);
    asked_days(rt, b"overdue, sound", 146096, 0);
    asked_days(rt, b"from a later day on: 1", 19999, 20000);
    asked_days(rt, b"the largest first day: 1", 146096, u32::MAX);
}

// The deal in a security with this line, at this price.
fn deal_in(row: Security, price: u32, lots: u16) -> State {
    let mut s = day();
    s.rules.table[0] = row;
    let mut x = deal();
    x.price = price;
    x.lots = lots;
    with_deals(s, 20000, x, 1)
}

fn share(lot: u64) -> Security {
    Security {
        currency: 0,
        lot,
        step: 1,
        nominal: 0,
    }
}

// 27961 × 3541 × 101 is 10^10 + 1.
fn first_sums(rt: &impl Print) {
    let mut s = deal_in(share(1), 1000000, 10000);
    asked(rt, b"a first sum of 10^10, sound", s);
    s.rules.rate = 1000;
    asked(rt, b"the same with a tariff, sound", s);
    asked(
        rt,
        b"a unit above 10^10: 1",
        deal_in(share(101), 27961, 3541),
    );
}

// 15305 × 95770 × 68224 is 10^14 + 6400, and 17690 × 93630 × 60375 is 10^14 + 12500.
fn percent_sums(rt: &impl Print) {
    asked(
        rt,
        b"10^10 and 0.64 in percent, rounded down, sound",
        deal_in(bond(68224), 15305, 9577),
    );
    asked(
        rt,
        b"10^10 and 1.25 in percent: 1",
        deal_in(bond(60375), 17690, 9363),
    );
    asked(rt, b"200 percent, sound", deal_in(bond(10000), 20000, 10));
    asked(rt, b"above 200 percent: 1", deal_in(bond(10000), 20005, 10));
}

// Two deals on day 20000, begun on these days.
fn asked_ages(rt: &impl Print, label: &[u8], first: u32, second: u32) {
    let mut x = deal();
    x.first = first;
    let mut records = Records {
        date: 20000,
        count: 2,
        deals: [x; 64],
    };
    x.first = second;
    records.deals[1] = x;
    let mut s = day();
    s.records = records;
    asked(rt, label, s);
}

fn deal_ages(rt: &impl Print) {
    asked_ages(rt, b"two deals of one day, sound", 19999, 19999);
    asked_ages(rt, b"the second of a later day, sound", 19999, 20000);
    asked_ages(rt, b"the second of an earlier day: 1", 20000, 19999);
    asked_ages(rt, b"the second of a day to come: 1", 20000, 20001);
}

fn asked_count(rt: &impl Print, label: &[u8], count: usize) {
    asked(rt, label, with_deals(day(), 20000, deal(), count));
}

fn deal_counts(rt: &impl Print) {
    asked_count(rt, b"64 deals, sound", 64);
    asked_count(rt, b"65 deals: 1", 65);
    asked_count(rt, b"far too many deals: 1", usize::MAX);
}

fn deals_in_phases(rt: &impl Print) {
    let s = with_deals(day(), 20000, deal(), 1);
    asked(
        rt,
        b"a deal while collecting, sound",
        with_phase(s, Phase::Collecting),
    );
    asked(
        rt,
        b"a deal while closing, sound",
        with_phase(s, Phase::Closing),
    );
    asked(
        rt,
        b"a deal when closed, sound",
        with_phase(s, Phase::Closed),
    );
}

// Past the table's last day.
fn unsound_records(rt: &impl Print) {
    let s = with_deals(funded(), 146097, deal(), 0);
    bought(rt, b"an order: 1", s);
    after(rt, b"a cancellation: 1", cancel(s, 0, 1));
    after(rt, b"start of closing: 1", start_closing(s));
}

// 128 kept orders of one lot, all of participant 1.
fn full_day() -> State {
    let mut s = with_codes(with_pieces(funded(), 16, 0, 1280), 1, 128);
    for (i, order) in s.floor.orders.iter_mut().enumerate() {
        *order = sell_order(i as u64 + 1, 1, 0, 1, Kind::Kept(95));
    }
    s.floor.count = 128;
    s
}

// An order isn't asked for room among the deals.
fn orders_beside_deals(rt: &impl Print) {
    bought(
        rt,
        b"a kept order beside 64 deals",
        with_deals(funded(), 20000, deal(), 64),
    );
    bought(
        rt,
        b"128 orders beside 64 deals: 12",
        with_deals(full_day(), 20000, deal(), 64),
    );
}

// Room is asked before codes, of a kept order only.
fn orders_without_codes(rt: &impl Print) {
    let s = with_codes(full_day(), 0, 62500);
    bought(rt, b"128 orders and 62500 codes: 12", s);
    after(
        rt,
        b"an immediate order: 13",
        entered(s, 0, buy(0, 95, 1), TimeInForce::ImmediateOrCancel),
    );
}

// An offer of participant 0 to buy security 0, whose trades are not looked at.
fn offer(s: State, price: u64, lots: u64, rate: u64, term: u64) -> Outcome {
    let mut trades = [0u64; 1088];
    enter_offer(s, 0, Side::Buy, 0, price, lots, rate, term, &mut trades)
}

fn offered(rt: &impl Print, label: &[u8], s: State) {
    after(rt, label, offer(s, 95, 10, 300, 7));
}

// Past the table's last day; 1 comes ahead of 24.
fn unsound_dealings(rt: &impl Print) {
    let s = with_deals(funded(), 146097, deal(), 1);
    offered(rt, b"an offer: 1", s);
    after(rt, b"a second part: 1", second_part(s, 1));
    after(
        rt,
        b"a new day: 1",
        new_day(with_phase(s, Phase::Closed), 146097),
    );
}

fn offer_codes(rt: &impl Print) {
    let s = with_codes(funded(), 0, 62500);
    offered(rt, b"62500 codes given: 13", s);
    after(
        rt,
        b"for more than his money: 13",
        offer(s, 95, 10000, 300, 7),
    );
    let s = met(rt, b"another participant offers", s, 1, Side::Sell, 10);
    code_and_arrival(rt, b"his code and arrival", s);
    offered(rt, b"the last code", with_codes(funded(), 0, 62499));
    offered(rt, b"62501 codes: 1", with_codes(funded(), 0, 62501));
}

fn offer_beside_counts_past(rt: &impl Print) {
    let s = with_counts_past(funded(), u64::MAX);
    let s = after(
        rt,
        b"an offer beside counts past the participants",
        offer(s, 95, 10, 300, 7),
    );
    code_and_arrival(rt, b"its code and arrival", s);
    counts(rt, b"codes given", s);
}

// Participant 1's older offer has code 4, his own code 2: all five lots of one are met, then all of the other.
fn older_offer(rt: &impl Print, label: &[u8], side: Side, counter: Side) {
    let s = aged(4, side, Kind::Offer(300, 7, 95), Phase::Open);
    let s = met(rt, label, s, 0, counter, 5);
    met(rt, b"then the younger one", s, 0, counter, 5);
}

fn older_offers(rt: &impl Print) {
    older_offer(rt, b"the older offer to sell", Side::Sell, Side::Buy);
    older_offer(rt, b"the older offer to buy", Side::Buy, Side::Sell);
}

// The largest number is a multiple of the step.
fn largest_offers(rt: &impl Print) {
    let n = u64::MAX;
    let s = funded();
    after(
        rt,
        b"the largest number of lots: 7",
        offer(s, 95, n, 300, 7),
    );
    after(rt, b"the largest price: 8", offer(s, n, 10, 300, 7));
    after(rt, b"the largest term and rate: 24", offer(s, 95, 10, n, n));
    after(rt, b"the largest rate: 25", offer(s, 95, 10, n, 7));
}

fn offers_beside_deals(rt: &impl Print) {
    offered(
        rt,
        b"an offer beside 63 deals",
        with_deals(funded(), 20000, deal(), 63),
    );
    let s = with_deals(funded(), 20000, deal(), 64);
    offered(rt, b"beside 64: 26", s);
    offered(rt, b"62500 codes, too: 26", with_codes(s, 0, 62500));
    let s = with_deals(full_day(), 20000, deal(), 64);
    let s = with_codes(s, 0, 62500);
    offered(rt, b"128 orders, too: 12", s);
    after(rt, b"a rate of 5001, too: 25", offer(s, 95, 10, 5001, 7));
}

// An offer lent a list of sevens: its first part and the 8 numbers behind it.
fn met(rt: &impl Print, label: &[u8], s: State, participant: u64, side: Side, lots: u64) -> State {
    let mut trades = [7u64; 1088];
    let o = enter_offer(s, participant, side, 0, 95, lots, 300, 7, &mut trades);
    let s = after(rt, label, o);
    numbers(rt, label, &trades, 0);
    numbers(rt, b"the next 8 numbers", &trades, 8);
    s
}

fn date_and_deals(rt: &impl Print, s: State) {
    position(
        rt,
        b"date and deals",
        s.records.date,
        s.records.count as u64,
    );
}

fn first_part(rt: &impl Print) {
    let s = with_deals(funded(), 20000, deal(), 63);
    let s = met(rt, b"an offer to sell waits", s, 1, Side::Sell, 10);
    let s = met(rt, b"an offer to buy meets it", s, 0, Side::Buy, 10);
    money(rt, b"free and blocked money of the buyer", s, 0);
    let t = s.floor.turnover[0];
    position(rt, b"Q and T stay", t.pieces, t.value);
    date_and_deals(rt, s);
    met(rt, b"that was the 64th deal: 26", s, 0, Side::Buy, 10);
}

// So many deals that are due; the first buyer has the pieces of one, the first seller this money.
fn due(count: usize, cash: u64) -> State {
    let s = with_deals(day(), 20007, deal(), count);
    with_money(with_pieces(s, 0, 100, 0), 16, cash, 0)
}

// 7 days of a year of 366: 9500 × 300 × 7 / 3660000 is 5.45.
fn places(rt: &impl Print) {
    let s = due(64, 9505);
    after(rt, b"the largest place: 16", second_part(s, u64::MAX));
    after(rt, b"place 65: 16", second_part(s, 65));
    after(rt, b"a unit short: 14", second_part(due(64, 9504), 64));
    let s = after(rt, b"place 64", second_part(s, 64));
    money(rt, b"what the first buyer gets", s, 0);
    date_and_deals(rt, s);
    after(rt, b"place 64 past the count: 16", second_part(s, 64));
}

// The largest first sum at the highest rate for 365 days, on its due day; the first seller has this money.
fn paid_back(rt: &impl Print, label: &[u8], first: u32, date: u64, cash: u64) {
    let mut s = day();
    s.rules.table[0] = share(1);
    let mut x = deal();
    x.price = 1000000;
    x.lots = 10000;
    x.rate = 5000;
    x.term = 365;
    x.first = first;
    let s = with_pieces(with_deals(s, date, x, 1), 0, 10000, 0);
    let s = after(rt, label, second_part(with_money(s, 16, cash, 0), 1));
    money(rt, b"money of the first buyer", s, 0);
}

// 365 / 366 of 5 × 10^9 is 4986338797.8; day 19723 is the first of 2024.
fn second_sums(rt: &impl Print) {
    paid_back(
        rt,
        b"half as much again after 365 days of 365",
        0,
        365,
        15000000000,
    );
    paid_back(rt, b"a unit short: 14", 0, 365, 14999999999);
    paid_back(
        rt,
        b"up to the table's last day",
        145731,
        146096,
        15000000000,
    );
    paid_back(rt, b"after 365 days of 366", 19722, 20087, 14986338798);
    paid_back(rt, b"a unit short: 14", 19722, 20087, 14986338797);
}

fn later_day(rt: &impl Print) {
    let mut s = with_phase(with_deals(funded(), 20000, deal(), 64), Phase::Closed);
    after(rt, b"the largest date: 24", new_day(s, u64::MAX));
    s.floor.codes[0] = 62500;
    s.floor.codes[1] = 62500;
    s.floor.turnover[0] = Turnover {
        pieces: 1250000000000,
        value: 1250000000000,
    };
    let s = after(rt, b"a new day after all codes", new_day(s, 20001));
    date_and_deals(rt, s);
    let t = s.floor.turnover[0];
    position(rt, b"Q and T", t.pieces, t.value);
    codes_anew(rt, s);
}

fn codes_anew(rt: &impl Print, s: State) {
    counts(rt, b"codes given", s);
    let s = after(rt, b"the first code anew", order(s, 0, buy(0, 5, 1)));
    code_and_arrival(rt, b"it and its arrival", s);
    after(rt, b"another's first code", order(s, 1, sell(0, 95, 1)));
}

fn later_day_unread(rt: &impl Print) {
    let s = with_phase(with_unread(), Phase::Closed);
    let s = after(
        rt,
        b"a new day with anything past the counts",
        new_day(s, 1),
    );
    counts(rt, b"codes given", s);
    asked(rt, b"sound after it", s);
}

fn offers(rt: &impl Print) {
    offers_while_open(rt);
    offers_in_other_phases(rt);
    offers_block(rt);
    offers_later(rt);
    offer_passed_by(rt);
}

fn deals(rt: &impl Print) {
    dates(rt);
    deal_names(rt);
    deal_lots(rt);
    deal_prices(rt);
    deal_rates(rt);
    deal_terms(rt);
    deal_days(rt);
    first_sums(rt);
    percent_sums(rt);
    deal_ages(rt);
    deal_counts(rt);
    deals_in_phases(rt);
    unsound_records(rt);
    orders_beside_deals(rt);
    orders_without_codes(rt);
}

fn dealings(rt: &impl Print) {
    unsound_dealings(rt);
    offer_codes(rt);
    offer_beside_counts_past(rt);
    older_offers(rt);
    largest_offers(rt);
    offers_beside_deals(rt);
    first_part(rt);
    places(rt);
    second_sums(rt);
    later_day(rt);
    later_day_unread(rt);
}

fn main(rt: HostRuntime) {
    largest_date(&rt);
    offers(&rt);
    deals(&rt);
    dealings(&rt);
}
