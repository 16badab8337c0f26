// The opening of a trading day: its arguments are asked, and an empty state is handed back.
#![tactic(auto)]

ghost use Rattle.std.specs.Prelude.{◌≡◌, ◌≤◌, ◌<◌, MatchOption};
ghost use Rattle.market.specs.Limits.{max_securities};
ghost use Rattle.market.specs.Opening.{wrong_line};
ghost use Rattle.market.specs.Ledger.{whole};
ghost use Rattle.market.specs.ActStep.{opened_ledger};
ghost use Rattle.market.specs.Contract.{Opens, empty_floor, empty_state, no_records};
ghost use Rattle.opening.specs.Opening.{RefusedOpening};

use market::{
    Answer, Deal, Floor, Kind, LAST_DAY, MAX_RATE, Order, Outcome, Phase, Records, Refusal, Rules,
    Security, Side, State, Turnover,
};
use soundness::{counts_sound, row_sound, table_sound};

// The place of the first wrong row, from 1.
fn first_wrong(rules: &Rules) -> Option<u64>
    requires { rules.now.securities ≤ max_securities }
    ensures { MatchOption result (wrong_line rules.now ≡ 0) (λ line. (0 < line) × (wrong_line rules.now ≡ line)) }
{
    for i in 0..rules.securities {
        if !row_sound(rules.currencies, rules.table[i as usize]) {
            return Some(i + 1);
        }
    }
    None
}

// No deal is open.
fn no_deals(date: u64) -> Records
    ensures { result ≡ no_records date }
{
    Records {
        date,
        count: 0,
        deals: [Deal {
            price: 0,
            first: 0,
            lots: 0,
            rate: 0,
            term: 0,
            buyer: 0,
            seller: 0,
            security: 0,
        }; 64],
    }
}

// Nothing has happened yet.
fn empty_floor() -> Floor
    ensures { result ≡ empty_floor }
{
    let blank = Order {
        code: 0,
        participant: 0,
        side: Side::Buy,
        lots: 0,
        arrival: 0,
        security: 0,
        kind: Kind::Kept(0),
    };
    Floor {
        phase: Phase::Open,
        orders: [blank; 128],
        count: 0,
        codes: [0; 16],
        turnover: [Turnover {
            pieces: 0,
            value: 0,
        }; 16],
        money: [0; 544],
        pieces: [0; 544],
    }
}

// Rules and date as given, everything else at zero.
fn opened(rules: Rules, date: u64) -> State
    ensures result_value { whole result ≡ opened_ledger rules date }
    ensures value { result ≡ empty_state rules date }
{
    State {
        rules,
        floor: empty_floor(),
        records: no_deals(date),
    }
}

// What a refused opening hands back: zeros, which is unsound. The number isn't a `Refusal`: this answers any, and a narrower
// type would ask more.
pub fn refused_opening(number: u64, place: u64) -> Outcome
    ensures { RefusedOpening number place result }
{
    let none = Rules {
        participants: 0,
        currencies: 0,
        securities: 0,
        table: [Security {
            currency: 0,
            lot: 0,
            step: 0,
            nominal: 0,
        }; 16],
        rate: 0,
    };
    Outcome {
        answer: Answer::Refused(number, place),
        state: opened(none, 0),
    }
}

pub fn opening(rules: Rules, date: u64) -> Outcome
    ensures { Opens rules date result }
{
    if !counts_sound(rules.participants, rules.currencies, rules.securities) {
        return refused_opening(Refusal::CountsOutOfRange.number(), 0);
    }
    if let Some(line) = first_wrong(&rules) {
        return refused_opening(Refusal::WrongLine.number(), line);
    }
    // Every line is in range, so that a security that isn't sound has a wrong nominal.
    if !table_sound(rules.currencies, rules.securities, rules.table) {
        return refused_opening(Refusal::NominalOutOfRange.number(), 0);
    }
    if MAX_RATE < rules.rate {
        return refused_opening(Refusal::RateOutOfRange.number(), 0);
    }
    if LAST_DAY < date {
        return refused_opening(Refusal::DayOutOfRange.number(), 0);
    }
    Outcome {
        answer: Answer::Done(0, 0, 0, 0),
        state: opened(rules, date),
    }
}
