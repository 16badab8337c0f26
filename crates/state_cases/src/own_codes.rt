// Codes counted for each member, and arrivals (T-07): which states are sound, counts past the participants, a million codes in all,
// and the older order first though its code is the higher one.
use case_states::{
    after, aged, arrived, asked, bought, buy, code_and_arrival, counts, day, entered, funded, kept,
    money, numbers, order, sell, sell_order, table, traded, waiting, with_codes, with_counts_past,
    with_money, with_pieces,
};
use engine::{
    cancel, end_collecting, end_session, enter_closing_order, increase_money, opening,
    start_collecting,
};
use market::{Kind, Order, Phase, Side, State, Ticket, TimeInForce, Turnover};

fn five(code: u64, participant: u64, arrival: u32) -> Order {
    arrived(sell_order(code, participant, 0, 5, Kind::Kept(95)), arrival)
}

// Two orders of participant 1, who has 4 codes of 9 given in all.
fn asked_numbers(rt: &impl Print, label: &[u8], first: u64, second: u64, older: u32, younger: u32) {
    let mut s = with_codes(waiting(five(first, 1, older)), 0, 5);
    s.floor.orders[1] = five(second, 1, younger);
    s.floor.count = 2;
    asked(rt, label, s);
}

fn arrivals(rt: &impl Print) {
    asked_numbers(rt, b"codes 3 and 4, arrivals 8 and 9, sound", 3, 4, 8, 9);
    asked_numbers(rt, b"arrivals 1 and 2, sound", 3, 4, 1, 2);
    asked_numbers(rt, b"arrival 0: 1", 3, 4, 0, 9);
    asked_numbers(rt, b"one arrival of two orders: 1", 3, 4, 8, 8);
    asked_numbers(rt, b"arrivals that fall: 1", 3, 4, 9, 8);
    asked_numbers(rt, b"an arrival above all codes: 1", 3, 4, 8, 10);
    asked_numbers(rt, b"the largest arrival: 1", 3, 4, 8, u32::MAX);
}

fn codes_of_one(rt: &impl Print) {
    asked_numbers(rt, b"codes 1 and 4, sound", 1, 4, 8, 9);
    asked_numbers(rt, b"code 0, its arrival sound: 1", 0, 4, 8, 9);
    asked_numbers(rt, b"one code of two orders: 1", 3, 3, 8, 9);
    asked_numbers(rt, b"codes that fall: 1", 4, 3, 8, 9);
    asked_numbers(rt, b"a code above his count, not above all: 1", 3, 5, 8, 9);
    asked_numbers(rt, b"the largest code: 1", 3, u64::MAX, 8, 9);
}

// An order of participant 1, who has 4 codes, then one of participant 0, who has 5.
fn asked_two(rt: &impl Print, label: &[u8], first: u64, second: u64, older: u32, younger: u32) {
    let s = with_pieces(waiting(five(first, 1, older)), 16, 0, 50);
    let mut s = with_codes(with_pieces(s, 0, 0, 50), 0, 5);
    s.floor.orders[1] = five(second, 0, younger);
    s.floor.count = 2;
    asked(rt, label, s);
}

fn codes_of_two(rt: &impl Print) {
    asked_two(
        rt,
        b"a lower code of another participant, sound",
        4,
        2,
        8,
        9,
    );
    asked_two(rt, b"one code of two participants, sound", 4, 4, 8, 9);
    asked_two(rt, b"codes that rise, arrivals that fall: 1", 2, 4, 9, 8);
    asked_two(rt, b"one arrival of two participants: 1", 4, 2, 9, 9);
    asked_two(rt, b"a code above his count only: 1", 5, 2, 8, 9);
    asked_two(rt, b"the same code within another's, sound", 4, 5, 8, 9);
}

// Participant 1's code 3, participant 0's 1, then this code of participant 1.
fn asked_around(rt: &impl Print, label: &[u8], third: u64) {
    let s = with_pieces(waiting(five(3, 1, 7)), 0, 0, 50);
    let mut s = with_codes(s, 0, 5);
    s.floor.orders[1] = five(1, 0, 8);
    s.floor.orders[2] = five(third, 1, 9);
    s.floor.count = 3;
    asked(rt, label, s);
}

fn codes_around_another(rt: &impl Print) {
    asked_around(rt, b"his codes rise around another's, sound", 4);
    asked_around(rt, b"they do not: 1", 3);
    asked_around(rt, b"they fall, above the other's: 1", 2);
}

// Q where participant 0 has 2 codes and participant 1 has 3; T is the same.
fn asked_pieces(rt: &impl Print, label: &[u8], pieces: u64) {
    let mut s = with_codes(with_codes(day(), 0, 2), 1, 3);
    s.floor.turnover[1] = Turnover {
        pieces,
        value: pieces,
    };
    asked(rt, label, s);
}

fn pieces_of_all_codes(rt: &impl Print) {
    asked_pieces(
        rt,
        b"as many pieces as all codes can trade, sound",
        50000000,
    );
    asked_pieces(rt, b"a piece more: 1", 50000001);
}

// What stands past the participants is neither read nor changed, the largest numbers too.
fn orders_beside_counts_past(rt: &impl Print) {
    let s = with_counts_past(funded(), u64::MAX);
    let s = after(
        rt,
        b"an order beside counts past the participants",
        order(s, 0, buy(0, 5, 1)),
    );
    code_and_arrival(rt, b"its code and arrival", s);
    counts(rt, b"one count rises", s);
    let s = after(rt, b"an order that meets it", order(s, 1, sell(0, 5, 1)));
    counts(rt, b"the other one rises", s);
}

fn refusals_beside_counts_past(rt: &impl Print) {
    let s = with_counts_past(funded(), 7);
    let s = after(
        rt,
        b"a participant past the count: 4",
        order(s, 2, buy(0, 5, 1)),
    );
    counts(rt, b"a refusal leaves all counts", s);
    let s = after(
        rt,
        b"an increase beside counts past",
        increase_money(s, 0, 0, 1),
    );
    counts(rt, b"leaves them, too", s);
}

// Ten lots of participant 1, who has 4 codes; this count past the participants.
fn asked_arrival(rt: &impl Print, label: &[u8], arrival: u32, past: u64) {
    let o = sell_order(3, 1, 0, 10, Kind::Kept(95));
    asked(
        rt,
        label,
        with_counts_past(waiting(arrived(o, arrival)), past),
    );
}

// Counts past the participants do not widen what all codes allow.
fn bounds_beside_counts_past(rt: &impl Print) {
    let mut s = with_codes(with_counts_past(day(), 5), 1, 1);
    s.floor.turnover[1] = Turnover {
        pieces: 10000001,
        value: 10000001,
    };
    asked(rt, b"more pieces than one code can, counts past: 1", s);
    asked_arrival(rt, b"arrival 4 of 4, counts past, sound", 4, 5);
    asked_arrival(rt, b"arrival 5 of 4, counts past: 1", 5, 5);
    asked_arrival(
        rt,
        b"arrival 4 of 4, the largest counts past, sound",
        4,
        u64::MAX,
    );
    after(
        rt,
        b"no code given but past the participants",
        start_collecting(with_counts_past(funded(), 5)),
    );
}

// So many participants, the last place's count above the limit.
fn asked_last(rt: &impl Print, label: &[u8], participants: u64) {
    let o = opening(participants, 1, 1, table(), 0, 0);
    asked(rt, label, with_codes(o.state, 15, 62501));
}

fn counts_of_the_last(rt: &impl Print) {
    asked_last(rt, b"62501 codes at place 15 of 15, sound", 15);
    asked_last(rt, b"62501 codes of the last of 16: 1", 16);
}

// Participant 0 has all his codes.
fn used_up(rt: &impl Print) {
    let s = with_codes(funded(), 0, 62500);
    let t = buy(0, 5, 1);
    bought(rt, b"62500 codes given: 13", s);
    after(
        rt,
        b"an immediate order: 13",
        entered(s, 0, t, TimeInForce::ImmediateOrCancel),
    );
    after(
        rt,
        b"whole or nothing, not fillable: 13",
        entered(s, 0, t, TimeInForce::FillOrKill),
    );
    after(
        rt,
        b"for more than his money: 13",
        order(s, 0, buy(0, 1000000, 10000)),
    );
}

fn others_enter(rt: &impl Print) {
    let s = with_codes(funded(), 0, 62500);
    let s = after(rt, b"another participant", order(s, 1, sell(0, 95, 1)));
    code_and_arrival(rt, b"his code and arrival", s);
    bought(rt, b"and after him: 13", s);
}

fn last_code(rt: &impl Print) {
    let s = with_codes(with_codes(funded(), 0, 62499), 1, 62500);
    let s = after(rt, b"the last code", order(s, 0, buy(0, 5, 1)));
    code_and_arrival(rt, b"it and its arrival", s);
    bought(rt, b"one more: 13", s);
    after(rt, b"the other one: 13", order(s, 1, sell(0, 95, 1)));
    bought(rt, b"62501 codes: 1", with_codes(s, 0, 62501));
}

// Nothing is met and nothing waits, but the code is given.
fn last_code_dropped(rt: &impl Print) {
    let s = with_codes(funded(), 0, 62499);
    let force = TimeInForce::ImmediateOrCancel;
    let s = after(
        rt,
        b"the last code, of an order that is dropped",
        entered(s, 0, buy(0, 5, 1), force),
    );
    bought(rt, b"one more: 13", s);
}

// 16 participants with all their codes.
fn a_million() -> State {
    let mut s = opening(16, 2, 2, table(), 0, 0).state;
    s.floor.codes.fill(62500);
    s
}

fn asked_million(rt: &impl Print, label: &[u8], pieces: u64, value: u64) {
    let mut s = a_million();
    s.floor.turnover[1] = Turnover { pieces, value };
    asked(rt, label, s);
}

fn million_turnover(rt: &impl Print) {
    asked_million(rt, b"1000000 codes in all, sound", 0, 0);
    asked_million(
        rt,
        b"the largest Q and T, sound",
        10000000000000,
        10000000000000000000,
    );
    asked_million(rt, b"Q larger: 1", 10000000000001, 10000000000001);
    asked_million(rt, b"T larger: 1", 10000000000000, 10000000000000000001);
}

fn asked_late(rt: &impl Print, label: &[u8], arrival: u32) {
    let o = sell_order(62500, 1, 0, 10, Kind::Kept(95));
    let mut s = with_pieces(a_million(), 16, 0, 100);
    s.floor.orders[0] = arrived(o, arrival);
    s.floor.count = 1;
    asked(rt, label, s);
}

fn million_arrivals(rt: &impl Print) {
    asked_late(rt, b"arrival 1000000, sound", 1000000);
    asked_late(rt, b"arrival 1000001: 1", 1000001);
    let s = with_codes(with_money(a_million(), 240, 50, 0), 15, 62499);
    let s = after(rt, b"the last code of all", order(s, 15, buy(0, 5, 1)));
    code_and_arrival(rt, b"it and its arrival", s);
    after(rt, b"one more: 13", order(s, 15, buy(0, 5, 1)));
}

fn everybody(rt: &impl Print) {
    let s = a_million();
    for participant in 0..16 {
        after(rt, b"each of 16: 13", order(s, participant, buy(0, 5, 1)));
    }
}

// Participant 0 meets 7 lots of two orders: all of the older, though its code is 4 and the younger's 2.
fn older_first(rt: &impl Print, label: &[u8], side: Side, t: Ticket) {
    let s = aged(4, side, Kind::Kept(95), Phase::Open);
    traded(rt, label, s, 0, t, TimeInForce::Kept);
}

fn older_in_auction(rt: &impl Print, label: &[u8], side: Side, t: Ticket) {
    let mut trades = [7u64; 1088];
    let s = kept(aged(4, side, Kind::Kept(95), Phase::Collecting), 0, t);
    after(rt, label, end_collecting(s, &mut trades));
    numbers(rt, label, &trades, 0);
    numbers(rt, b"the next 8 numbers", &trades, 8);
}

fn older_at_closing(rt: &impl Print, label: &[u8], side: Side, t: Ticket) {
    let mut trades = [7u64; 1088];
    let s = aged(4, side, Kind::Closing, Phase::Closing);
    let o = enter_closing_order(s, 0, t.side, t.security, t.lots);
    after(rt, label, end_session(o.state, &mut trades));
    numbers(rt, label, &trades, 0);
    numbers(rt, b"the next 8 numbers", &trades, 8);
}

fn older(rt: &impl Print) {
    older_first(rt, b"buy from the older sell", Side::Sell, buy(0, 95, 7));
    older_first(rt, b"sell to the older buy", Side::Buy, sell(0, 95, 7));
    older_in_auction(
        rt,
        b"the older sell in an auction",
        Side::Sell,
        buy(0, 95, 7),
    );
    older_in_auction(
        rt,
        b"the older buy in an auction",
        Side::Buy,
        sell(0, 95, 7),
    );
    older_at_closing(rt, b"the older sell at closing", Side::Sell, buy(0, 95, 7));
    older_at_closing(rt, b"the older buy at closing", Side::Buy, sell(0, 95, 7));
}

// Both orders have code 2.
fn cancelled(rt: &impl Print) {
    let s = aged(2, Side::Buy, Kind::Kept(95), Phase::Open);
    let s = after(rt, b"his order of a code that two have", cancel(s, 0, 2));
    money(rt, b"his money is free", s, 0);
    money(rt, b"the other's is blocked", s, 16);
    after(rt, b"once more: 16", cancel(s, 0, 2));
    let s = after(rt, b"the other's", cancel(s, 1, 2));
    money(rt, b"and free", s, 16);
}

fn another_code(rt: &impl Print) {
    let s = aged(4, Side::Buy, Kind::Kept(95), Phase::Open);
    after(rt, b"a code of another only: 16", cancel(s, 0, 4));
    after(rt, b"an arrival is no code: 16", cancel(s, 1, 8));
}

pub fn sound_codes(rt: &impl Print) {
    arrivals(rt);
    codes_of_one(rt);
    codes_of_two(rt);
    codes_around_another(rt);
    pieces_of_all_codes(rt);
    million_turnover(rt);
    counts_of_the_last(rt);
    bounds_beside_counts_past(rt);
}

pub fn codes_given(rt: &impl Print) {
    orders_beside_counts_past(rt);
    refusals_beside_counts_past(rt);
    used_up(rt);
    others_enter(rt);
    last_code(rt);
    last_code_dropped(rt);
    million_arrivals(rt);
    everybody(rt);
    older(rt);
    cancelled(rt);
    another_code(rt);
}
