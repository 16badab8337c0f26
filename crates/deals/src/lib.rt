// Are the records sound: date, and open deals? Asked of any values at all, under sound rules.
#![tactic(auto)]

ghost use Rattle.std.specs.Prelude.{◌≡◌, true, ◌<◌, ◌≤◌};
ghost use Rattle.market.specs.Limits.{max_lot, max_lots, max_nominal, max_price};
ghost use Rattle.market.specs.Sound.{rules_sound};
ghost use Rattle.market.specs.Deals.{loan_sound, term_sound};
ghost use Rattle.market.specs.Ledger.{first_deals, records_sound};
ghost use Rattle.deals.specs.Parts.{dealt_sound};

use amounts::{price_sound, sum_for, within};
use market::{
    Deal, LAST_DAY, MAX_DEALS, MAX_FIRST_SUM, MAX_LOTS, MAX_OFFER_RATE, MAX_TERM, Records, Rules,
    Security,
};

// Question 24 of an offer that is met on this day: is its term in range, its due day in the table?
pub fn term_sound(first: u64, term: u64) -> bool
    ensures { result ≡ term_sound first term }
{
    within(1, MAX_TERM, term) && first <= LAST_DAY - term
}

// Question 25: are rate and first sum in range?
pub fn loan_sound(row: Security, price: u64, lots: u64, rate: u64) -> bool
    requires { (row.lot ≤ max_lot) × (row.nominal ≤ max_nominal) × (price ≤ max_price) × (lots ≤ max_lots) }
    ensures { result ≡ loan_sound row price lots rate }
{
    rate <= MAX_OFFER_RATE && sum_for(row, price, lots) <= MAX_FIRST_SUM
}

// All of a deal but its security, which is known. One at a time: joined by `&&` the proof didn't close.
fn deal_sound(participants: u64, row: Security, deal: Deal) -> bool
    requires { (0 < row.step) × (row.lot ≤ max_lot) × (row.nominal ≤ max_nominal) }
    ensures { result ≡ dealt_sound participants row deal }
{
    if participants <= u64::from(deal.buyer) {
        return false;
    }
    if participants <= u64::from(deal.seller) {
        return false;
    }
    let lots = u64::from(deal.lots);
    if !within(1, MAX_LOTS, lots) {
        return false;
    }
    let price = u64::from(deal.price);
    if !price_sound(row, price) {
        return false;
    }
    if !term_sound(u64::from(deal.first), u64::from(deal.term)) {
        return false;
    }
    loan_sound(row, price, lots, u64::from(deal.rate))
}

// A date of the table, and at most 64 deals, each sound, oldest first and none from a later day.
pub fn records_sound(rules: &Rules, records: &Records) -> bool
    requires { rules_sound rules.now ≡ true }
    ensures { result ≡ records_sound rules.now records.now.date (first_deals records.now.count records.now.deals) }
{
    if LAST_DAY < records.date {
        return false;
    }
    if MAX_DEALS < records.count as u64 {
        return false;
    }
    let mut last: u64 = 0;
    for i in 0..records.count {
        let deal = records.deals[i];
        let first = u64::from(deal.first);
        if first < last {
            return false;
        }
        let security = u64::from(deal.security);
        if rules.securities <= security {
            return false;
        }
        let row = rules.table[security as usize];
        if !deal_sound(rules.participants, row, deal) {
            return false;
        }
        last = first;
    }
    last <= records.date
}
