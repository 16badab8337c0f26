// Cases of the trading day that no script can say, run on the engine: states made by hand, what lies past the counts, 62,500 codes
// of a member, numbers too long for a line, and what a call leaves as it was.
#![tactic(auto)]

mod lots;
mod own_codes;

use case_states::{
    after, arrived, asked, asked_closing, asked_collecting, asked_kind, bond, bought, buy,
    code_and_arrival, counts, day, funded, in_phase, kept, money, numbers, order, position, sell,
    sell_order, table, traded, waiting, with_codes, with_counts_past, with_money, with_pieces,
    with_unread,
};
use engine::{
    decrease_pieces, end_collecting, end_session, enter_closing_order, enter_group, increase_money,
    increase_pieces, opening, start_closing, start_collecting,
};
use lots::stored_lots;
use market::{Kind, Order, Phase, Security, Side, State, Ticket, TimeInForce, Turnover};
use own_codes::{codes_given, sound_codes};

fn line_past_the_count(rt: &impl Print) {
    let mut lines = table();
    lines[1] = Security {
        currency: 9,
        lot: 0,
        step: 0,
        nominal: 1,
    };
    after(
        rt,
        b"a wrong line past the count is not read",
        opening(1, 1, 1, lines, 0, 0),
    );
}

fn refused_opening_is_unsound(rt: &impl Print) {
    let s = after(rt, b"refused opening: 17", opening(0, 0, 0, table(), 0, 0));
    after(rt, b"its state: 1", increase_money(s, 0, 0, 1));
}

fn largest_number(rt: &impl Print) {
    after(
        rt,
        b"the largest number: 7",
        increase_pieces(day(), 0, 0, u64::MAX),
    );
}

fn asked_counts(
    rt: &impl Print,
    label: &[u8],
    participants: u64,
    currencies: u64,
    securities: u64,
) {
    let mut s = day();
    s.rules.participants = participants;
    s.rules.currencies = currencies;
    s.rules.securities = securities;
    asked(rt, label, s);
}

fn unsound_counts(rt: &impl Print) {
    asked_counts(rt, b"no participants: 1", 0, 2, 2);
    asked_counts(rt, b"17 participants: 1", 17, 2, 2);
    asked_counts(rt, b"5 currencies: 1", 2, 5, 2);
    asked_counts(rt, b"far too many securities: 1", 2, 2, u64::MAX);
}

fn asked_line(rt: &impl Print, label: &[u8], currency: u64, lot: u64, step: u64) {
    let mut s = day();
    s.rules.table[1] = Security {
        currency,
        lot,
        step,
        nominal: 0,
    };
    asked(rt, label, s);
}

fn unsound_lines(rt: &impl Print) {
    asked_line(rt, b"a line's currency unknown: 1", 2, 10, 5);
    asked_line(rt, b"lot 0: 1", 0, 0, 5);
    asked_line(rt, b"step 0: 1", 0, 10, 0);
}

fn asked_nominal(rt: &impl Print, label: &[u8], nominal: u64) {
    let mut s = day();
    s.rules.table[1] = bond(nominal);
    asked(rt, label, s);
}

fn nominals(rt: &impl Print) {
    asked_nominal(rt, b"nominal 1: 1", 1);
    asked_nominal(rt, b"nominal 9999: 1", 9999);
    asked_nominal(rt, b"nominal 10000, sound", 10000);
    asked_nominal(rt, b"nominal 500000, sound", 500000);
    asked_nominal(rt, b"nominal 500001: 1", 500001);
    asked_nominal(rt, b"the largest nominal: 1", u64::MAX);
}

fn asked_turnover(rt: &impl Print, label: &[u8], codes: u64, pieces: u64, value: u64) {
    let mut s = with_codes(day(), 1, codes);
    s.floor.turnover[1] = Turnover { pieces, value };
    asked(rt, label, s);
}

fn unsound_turnover(rt: &impl Print) {
    asked_turnover(rt, b"62500 codes of one participant, sound", 62500, 0, 0);
    asked_turnover(rt, b"62501: 1", 62501, 0, 0);
    asked_turnover(rt, b"the largest count: 1", u64::MAX, 0, 0);
    asked_turnover(
        rt,
        b"more pieces traded than one code can: 1",
        1,
        10000001,
        10000001,
    );
    asked_turnover(rt, b"T below Q: 1", 1, 10, 9);
    asked_turnover(rt, b"more than 1000000 a piece: 1", 1, 10, 10000001);
}

// Its arrival, 3, is sound whatever the rest.
fn asked_order(
    rt: &impl Print,
    label: &[u8],
    code: u64,
    participant: u64,
    security: u64,
    lots: u16,
) {
    let o = sell_order(code, participant, security, lots, Kind::Kept(95));
    asked(rt, label, waiting(arrived(o, 3)));
}

fn order_names(rt: &impl Print) {
    asked_order(rt, b"a waiting order, sound", 3, 1, 0, 10);
    asked_order(rt, b"code 0: 1", 0, 1, 0, 10);
    asked_order(rt, b"a code not given: 1", 5, 1, 0, 10);
    asked_order(rt, b"unknown participant: 1", 3, 2, 0, 10);
    asked_order(rt, b"unknown security: 1", 3, 1, 2, 10);
}

fn order_lots(rt: &impl Print) {
    asked_order(rt, b"no lots: 1", 3, 1, 0, 0);
    asked_order(rt, b"10001 lots: 1", 3, 1, 0, 10001);
}

fn kinds_while_open(rt: &impl Print) {
    asked_kind(rt, b"price 0: 1", Kind::Kept(0));
    asked_kind(rt, b"price off the step: 1", Kind::Kept(96));
    asked_kind(rt, b"price above 1000000: 1", Kind::Kept(1000005));
    asked_kind(rt, b"a closing order while open: 1", Kind::Closing);
}

// The waiting order in a security with a nominal; and a buy of 10 lots at 9950, with this blocked.
fn asked_percent(rt: &impl Print, label: &[u8], price: u64) {
    let mut s = waiting(sell_order(3, 1, 0, 10, Kind::Kept(price)));
    s.rules.table[0] = bond(10000);
    asked(rt, label, s);
}

fn asked_percent_buy(rt: &impl Print, label: &[u8], blocked: u64) {
    let mut s = with_codes(with_money(day(), 0, 0, blocked), 0, 4);
    s.rules.table[0] = bond(100001);
    s.floor.orders[0] = Order {
        code: 3,
        participant: 0,
        side: Side::Buy,
        lots: 10,
        arrival: 3,
        security: 0,
        kind: Kind::Kept(9950),
    };
    s.floor.count = 1;
    asked(rt, label, s);
}

fn percent_orders(rt: &impl Print) {
    asked_percent(rt, b"200 percent, sound", 20000);
    asked_percent(rt, b"above 200 percent: 1", 20005);
    asked_percent_buy(rt, b"9950099 blocked for 9950099.5, sound", 9950099);
    asked_percent_buy(rt, b"a unit more: 1", 9950100);
    asked_percent_buy(rt, b"price times pieces blocked: 1", 995000);
}

fn kinds_while_closing(rt: &impl Print) {
    asked_closing(rt, b"a kept order while closing: 1", Kind::Kept(95), 0, 0);
    asked_closing(rt, b"a closing order where Q is 0: 1", Kind::Closing, 0, 0);
    asked_closing(
        rt,
        b"a closing order where Q is above 0, sound",
        Kind::Closing,
        10,
        950,
    );
}

fn kinds_while_collecting(rt: &impl Print) {
    let kept = Kind::Kept(95);
    asked_collecting(rt, b"a kept order while collecting, sound", kept, 0, 0);
    asked_collecting(rt, b"Q and T while collecting, sound", kept, 10, 950);
    asked_collecting(rt, b"price off the step: 1", Kind::Kept(96), 0, 0);
    asked_collecting(
        rt,
        b"a closing order while collecting: 1",
        Kind::Closing,
        10,
        950,
    );
    let s = in_phase(Phase::Closed, kept, 0, 0);
    asked(rt, b"a kept order when closed: 1", s);
}

// Two orders of 5 lots, of codes 3 and 4.
fn asked_list(rt: &impl Print, label: &[u8], count: usize) {
    let mut s = waiting(sell_order(3, 1, 0, 5, Kind::Kept(95)));
    s.floor.orders[1] = sell_order(4, 1, 0, 5, Kind::Kept(95));
    s.floor.count = count;
    asked(rt, label, s);
}

fn lists(rt: &impl Print) {
    asked_list(rt, b"two orders that share what is blocked, sound", 2);
    asked_list(rt, b"129 orders: 1", 129);
    asked_list(rt, b"far too many orders: 1", usize::MAX);
}

fn blocked_pieces(rt: &impl Print) {
    let s = waiting(sell_order(3, 1, 0, 10, Kind::Kept(95)));
    asked(rt, b"a piece too few blocked: 1", with_pieces(s, 16, 0, 99));
    asked(
        rt,
        b"pieces blocked for no order: 1",
        with_pieces(day(), 1, 0, 1),
    );
}

fn asked_money(rt: &impl Print, label: &[u8], place: usize, free: u64, blocked: u64) {
    asked(rt, label, with_money(day(), place, free, blocked));
}

fn unsound_money(rt: &impl Print) {
    asked_money(rt, b"money blocked for no order: 1", 16, 0, 1);
    asked_money(rt, b"a total above its limit: 1", 17, 1000000000000001, 0);
    asked_money(rt, b"the largest amounts: 1", 17, u64::MAX, u64::MAX);
}

fn asked_rate(rt: &impl Print, label: &[u8], rate: u64) {
    let mut s = day();
    s.rules.rate = rate;
    asked(rt, label, s);
}

fn rates(rt: &impl Print) {
    asked_rate(rt, b"rate 1000, sound", 1000);
    asked_rate(rt, b"rate 1001: 1", 1001);
    asked_rate(rt, b"the largest rate: 1", u64::MAX);
}

// The market's account stands at 256 + currency, behind the positions of 16 participants.
fn accounts(rt: &impl Print) {
    let s = with_money(day(), 257, 5, 0);
    asked(
        rt,
        b"a total at its limit with the account, sound",
        with_money(s, 17, 999999999999995, 0),
    );
    asked(
        rt,
        b"a unit above it: 1",
        with_money(s, 17, 999999999999996, 0),
    );
    asked_money(rt, b"the largest account: 1", 257, u64::MAX, 0);
    asked_money(rt, b"blocked behind the account, not read", 257, 0, 7);
    asked_money(
        rt,
        b"an unknown currency's account, not read",
        258,
        u64::MAX,
        7,
    );
}

fn increases_beside_an_account(rt: &impl Print) {
    let s = with_money(day(), 256, 999999999999999, 0);
    after(
        rt,
        b"an increase by all that is left",
        increase_money(s, 0, 0, 1),
    );
    after(rt, b"and by one more: 9", increase_money(s, 0, 0, 2));
}

// A security's total is over participants alone: what stands in the market's row of pieces is not read. One participant,
// one security.
fn pieces_in_the_markets_row(rt: &impl Print) {
    let o = opening(1, 1, 1, table(), 0, 0);
    let s = with_pieces(o.state, 256, 1, 0);
    after(
        rt,
        b"pieces at their limit, one more in the market's row, sound",
        decrease_pieces(with_pieces(s, 0, 1000000000000, 0), 0, 0, 1),
    );
    let s = after(
        rt,
        b"an increase up to the limit beside it",
        increase_pieces(with_pieces(s, 0, 999999999999, 0), 0, 0, 1),
    );
    after(rt, b"and by one more: 9", increase_pieces(s, 0, 0, 1));
}

// Price and first day of the deal at the list's last place.
fn last_deal(rt: &impl Print, label: &[u8], s: State) {
    let x = s.records.deals[63];
    position(rt, label, u64::from(x.price), u64::from(x.first));
}

fn unread(rt: &impl Print) {
    let s = after(
        rt,
        b"anything past the counts, sound",
        increase_money(with_unread(), 0, 0, 1),
    );
    money(rt, b"an unknown currency's position stays", s, 2);
    last_deal(rt, b"a deal past the count stays", s);
    counts(rt, b"counts past the participants stay", s);
}

// A refusal hands back the very state, sound or not.
fn handed_back(rt: &impl Print) {
    let s = after(rt, b"amount 0: 7", increase_money(with_unread(), 0, 0, 0));
    money(rt, b"what is not read is handed back", s, 32);
    last_deal(rt, b"a deal past the count, too", s);
    counts(rt, b"counts past the participants, too", s);
    let s = with_money(day(), 16, 5, 1);
    let s = after(
        rt,
        b"money blocked for no order: 1",
        increase_money(s, 1, 0, 1),
    );
    money(rt, b"and handed back", s, 16);
}

fn one_trade(rt: &impl Print) {
    let s = kept(funded(), 1, sell(0, 95, 10));
    let s = traded(
        rt,
        b"buy 20 at 100",
        s,
        0,
        buy(0, 100, 20),
        TimeInForce::Kept,
    );
    let force = TimeInForce::FillOrKill;
    traded(rt, b"sell 5 whole or nothing", s, 1, sell(0, 100, 5), force);
}

fn own_order(rt: &impl Print) {
    let o = increase_pieces(funded(), 0, 0, 100);
    let s = kept(o.state, 0, sell(0, 95, 10));
    let label = b"buy 10 at 100 from himself";
    traded(rt, label, s, 0, buy(0, 100, 10), TimeInForce::Kept);
}

fn three_sells() -> State {
    let s = kept(funded(), 1, sell(0, 100, 5));
    let s = kept(s, 1, sell(0, 95, 5));
    kept(s, 1, sell(0, 95, 5))
}

fn bought_at_once(rt: &impl Print, label: &[u8], s: State, lots: u64) -> State {
    let force = TimeInForce::ImmediateOrCancel;
    traded(rt, label, s, 0, buy(0, 100, lots), force)
}

fn priorities(rt: &impl Print) {
    let s = bought_at_once(rt, b"the cheaper one, of two the earlier", three_sells(), 4);
    let s = bought_at_once(rt, b"its last lot, then the next", s, 6);
    bought_at_once(rt, b"then the dearer one", s, 6);
}

fn unsound_order(rt: &impl Print) {
    let mut s = funded();
    s.rules.participants = 0;
    bought(rt, b"unsound: 1", s);
}

fn linked_reserves() -> State {
    let o = increase_pieces(day(), 0, 0, 100);
    let o = increase_money(o.state, 1, 0, 10000);
    increase_pieces(o.state, 1, 1, 100).state
}

// Participant 0 has 100 pieces of security 0; participant 1 buys 10 lots of it at 100 and sells 10 of security 1 at 95.
fn linked_day() -> State {
    let s = kept(linked_reserves(), 1, buy(0, 100, 10));
    kept(s, 1, sell(1, 95, 10))
}

// A group of participant 0, lent a list of sevens; then 8 numbers of the list from `first` on.
fn grouped(
    rt: &impl Print,
    label: &[u8],
    s: State,
    count: u64,
    members: [Ticket; 8],
    listed: &[u8],
    first: usize,
) {
    let mut trades = [7u64; 1088];
    let o = enter_group(s, 0, count, members, &mut trades);
    after(rt, label, o);
    numbers(rt, listed, &trades, first);
}

// 10 lots of security 0 are sold at 100, then 10 of security 1 bought at this price.
fn sold_and_bought(price: u64) -> [Ticket; 8] {
    let mut members = [sell(0, 100, 10); 8];
    members[1] = buy(1, price, 10);
    members
}

fn groups_of_two(rt: &impl Print) {
    grouped(
        rt,
        b"sell, then buy for the proceeds",
        linked_day(),
        2,
        sold_and_bought(100),
        b"the numbers after them",
        16,
    );
    grouped(
        rt,
        b"proceeds too small: 14, place 2",
        linked_day(),
        2,
        sold_and_bought(105),
        b"the list is as before",
        0,
    );
}

fn group_of_eight(rt: &impl Print) {
    let mut members = [sell(0, 100, 1); 8];
    members[7] = sell(0, 105, 3);
    grouped(
        rt,
        b"eight members, the last refused: 15, place 8",
        linked_day(),
        8,
        members,
        b"the list is as before",
        0,
    );
}

fn linked_pair(rt: &impl Print, label: &[u8], s: State) {
    let mut trades = [0u64; 1088];
    let members = [sell(0, 100, 1); 8];
    let o = enter_group(s, 0, 2, members, &mut trades);
    after(rt, label, o);
}

fn group_codes(rt: &impl Print) {
    let mut s = linked_day();
    s.rules.currencies = 0;
    linked_pair(rt, b"unsound: 1", s);
    let s = linked_day();
    linked_pair(rt, b"the last two codes", with_codes(s, 0, 62498));
    linked_pair(
        rt,
        b"codes for one member only: 13, place 2",
        with_codes(s, 0, 62499),
    );
    linked_pair(rt, b"for none: 13, place 1", with_codes(s, 0, 62500));
    linked_pair(
        rt,
        b"nor any pieces: 13, place 1",
        with_codes(funded(), 0, 62500),
    );
    linked_pair(
        rt,
        b"a group beside counts past the participants",
        with_counts_past(s, u64::MAX),
    );
}

// Participant 0 has had 7 codes, participant 1 all of his; both of his orders, codes 1 and 2, are met.
fn group_among_others(rt: &impl Print) {
    let mut trades = [7u64; 1088];
    let s = with_codes(with_codes(linked_day(), 0, 7), 1, 62500);
    let o = enter_group(s, 0, 2, sold_and_bought(100), &mut trades);
    let s = after(rt, b"a group's codes follow its participant's", o);
    numbers(rt, b"its first trade", &trades, 0);
    numbers(rt, b"its second trade", &trades, 8);
    counts(rt, b"codes given", s);
}

// Trades 10 at 95 and 5 at 100: the closing price is 97. Participant 0 still buys 5 at 100.
fn turned_over() -> State {
    let s = kept(funded(), 1, sell(0, 95, 10));
    let s = kept(s, 0, buy(0, 100, 20));
    kept(s, 1, sell(0, 100, 5))
}

fn closing() -> State {
    start_closing(turned_over()).state
}

// A closing buy of participant 0.
fn closing_buy(rt: &impl Print, label: &[u8], s: State, security: u64, lots: u64) -> State {
    after(
        rt,
        label,
        enter_closing_order(s, 0, Side::Buy, security, lots),
    )
}

fn closing_codes(rt: &impl Print) {
    let s = with_codes(closing(), 0, 62500);
    closing_buy(rt, b"62500 codes given: 13", s, 0, 1);
    closing_buy(rt, b"for more than his money: 13", s, 0, 10000);
    closing_buy(rt, b"where Q is 0: 11", s, 1, 1);
    closing_buy(
        rt,
        b"beside 128 orders: 12",
        with_codes(full(), 0, 62500),
        0,
        1,
    );
    let o = enter_closing_order(s, 1, Side::Sell, 0, 1);
    let s = after(rt, b"another participant", o);
    code_and_arrival(rt, b"his code and arrival", s);
}

fn last_closing_codes(rt: &impl Print) {
    let s = with_codes(closing(), 0, 62499);
    let s = closing_buy(rt, b"the last code", s, 0, 1);
    closing_buy(rt, b"one more: 13", s, 0, 1);
    let s = with_counts_past(closing(), u64::MAX);
    let s = closing_buy(rt, b"beside counts past the participants", s, 0, 1);
    counts(rt, b"codes given", s);
}

fn unsound_session(rt: &impl Print) {
    let mut trades = [0u64; 1088];
    let mut s = turned_over();
    s.floor.count = 129;
    after(rt, b"start of an unsound state: 1", start_closing(s));
    after(
        rt,
        b"closing order: 1",
        enter_closing_order(s, 0, Side::Buy, 0, 1),
    );
    after(rt, b"end: 1", end_session(s, &mut trades));
}

// A closing buy of one lot where T is this and Q 9,999,990,000,000, which 16 participants' codes allow: twice T takes 65 bits.
fn closing_near_the_limit(rt: &impl Print, label: &[u8], traded: u64) {
    let o = increase_money(closing(), 0, 0, 10000000);
    let mut s = o.state;
    s.rules.participants = 16;
    s.floor.codes.fill(62500);
    s.floor.codes[0] = 62499;
    s.floor.turnover[0] = Turnover {
        pieces: 9999990000000,
        value: traded,
    };
    let s = after(rt, label, enter_closing_order(s, 0, Side::Buy, 0, 1));
    money(rt, b"free and blocked money of the buyer", s, 0);
}

fn closing_prices(rt: &impl Print) {
    closing_near_the_limit(rt, b"closing price 1000000", 9999990000000000000);
    closing_near_the_limit(rt, b"a half below it goes up", 9999985000005000000);
    closing_near_the_limit(rt, b"one less: 999999", 9999985000004999999);
}

// A sound closing price of 1000000 for 10000000 pieces of nominal 500000, at the highest rate: no sum is larger.
fn largest_closing() -> State {
    let row = Security {
        currency: 0,
        lot: 1000,
        step: 1,
        nominal: 500000,
    };
    let o = opening(2, 1, 1, [row; 16], 1000, 0);
    let o = increase_money(o.state, 0, 0, 505000000000000);
    let o = increase_pieces(o.state, 1, 0, 10000000);
    let o = start_closing(o.state);
    let mut s = with_codes(o.state, 0, 1);
    s.floor.turnover[0] = Turnover {
        pieces: 10000000,
        value: 10000000000000,
    };
    s
}

fn largest_trade(rt: &impl Print) {
    let mut trades = [7u64; 1088];
    let o = enter_closing_order(largest_closing(), 0, Side::Buy, 0, 10000);
    let s = after(rt, b"the largest buy", o);
    money(rt, b"all is blocked", s, 0);
    let o = enter_closing_order(s, 1, Side::Sell, 0, 10000);
    let s = after(rt, b"the largest trade", end_session(o.state, &mut trades));
    numbers(rt, b"its sum", &trades, 0);
    money(rt, b"what the seller gets", s, 16);
    money(rt, b"what the market gets", s, 256);
}

fn unsound_collecting(rt: &impl Print) {
    let mut trades = [0u64; 1088];
    let mut s = funded();
    s.floor.count = 129;
    after(rt, b"start of collecting: 1", start_collecting(s));
    after(rt, b"end of collecting: 1", end_collecting(s, &mut trades));
}

fn collecting() -> State {
    start_collecting(funded()).state
}

fn collecting_codes(rt: &impl Print) {
    after(
        rt,
        b"codes given to the first participant: 21",
        start_collecting(with_codes(funded(), 0, 62500)),
    );
    after(
        rt,
        b"a code given to the last one: 21",
        start_collecting(with_codes(funded(), 1, 1)),
    );
    let s = with_codes(collecting(), 0, 62500);
    after(rt, b"62500 codes given: 13", order(s, 0, buy(0, 100, 1)));
    after(rt, b"another participant", order(s, 1, sell(0, 100, 1)));
}

// Sell 10 at 95 and buy 20 at 100 are collected, where Q is 10 and T 950.
fn collected() -> State {
    let s = kept(collecting(), 1, sell(0, 95, 10));
    let mut s = kept(s, 0, buy(0, 100, 20));
    s.floor.turnover[0] = Turnover {
        pieces: 10,
        value: 950,
    };
    s
}

// The lower of two prices at which 10 lots trade.
fn one_auction(rt: &impl Print) {
    let mut trades = [7u64; 1088];
    let s = after(
        rt,
        b"end of collecting",
        end_collecting(collected(), &mut trades),
    );
    numbers(rt, b"its trade", &trades, 0);
    numbers(rt, b"the numbers after it", &trades, 8);
    money(rt, b"free and blocked money of the buyer", s, 0);
    let t = s.floor.turnover[0];
    position(rt, b"Q and T stay", t.pieces, t.value);
}

// Closing buys 3 and 4, sell 5.
fn paired() -> State {
    let o = enter_closing_order(closing(), 0, Side::Buy, 0, 3);
    let o = enter_closing_order(o.state, 0, Side::Buy, 0, 4);
    enter_closing_order(o.state, 1, Side::Sell, 0, 5).state
}

fn two_pairs(rt: &impl Print) {
    let mut trades = [7u64; 1088];
    after(
        rt,
        b"end of the session",
        end_session(paired(), &mut trades),
    );
    numbers(rt, b"the numbers after them", &trades, 16);
}

// 128 closing orders of one lot: participant 0 buys and participant 1 sells, in turn.
fn full() -> State {
    let o = increase_money(closing(), 0, 0, 1000000);
    let o = increase_pieces(o.state, 1, 0, 10000);
    let mut s = o.state;
    for _ in 0..64 {
        let o = enter_closing_order(s, 0, Side::Buy, 0, 1);
        s = enter_closing_order(o.state, 1, Side::Sell, 0, 1).state;
    }
    s
}

fn all_pairs(rt: &impl Print) {
    let mut trades = [0u64; 1088];
    after(rt, b"64 trades", end_session(full(), &mut trades));
    numbers(rt, b"the last of them", &trades, 504);
    numbers(rt, b"the numbers after it", &trades, 512);
}

fn states(rt: &impl Print) {
    unsound_counts(rt);
    unsound_lines(rt);
    nominals(rt);
    unsound_turnover(rt);
    order_names(rt);
    order_lots(rt);
    kinds_while_open(rt);
    percent_orders(rt);
    kinds_while_closing(rt);
    kinds_while_collecting(rt);
    lists(rt);
    sound_codes(rt);
    blocked_pieces(rt);
    unsound_money(rt);
    rates(rt);
    accounts(rt);
    increases_beside_an_account(rt);
    pieces_in_the_markets_row(rt);
}

fn left_as_it_was(rt: &impl Print) {
    unread(rt);
    handed_back(rt);
    one_trade(rt);
    own_order(rt);
    priorities(rt);
    groups_of_two(rt);
    group_of_eight(rt);
    two_pairs(rt);
    all_pairs(rt);
    one_auction(rt);
}

fn main(rt: HostRuntime) {
    line_past_the_count(&rt);
    refused_opening_is_unsound(&rt);
    largest_number(&rt);
    states(&rt);
    left_as_it_was(&rt);
    unsound_order(&rt);
    codes_given(&rt);
    group_codes(&rt);
    group_among_others(&rt);
    closing_codes(&rt);
    last_closing_codes(&rt);
    closing_prices(&rt);
    largest_trade(&rt);
    unsound_session(&rt);
    collecting_codes(&rt);
    unsound_collecting(&rt);
    stored_lots(&rt);
}
