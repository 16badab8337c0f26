// The lines of the end that say the records: the date, and the open deals with what they cost.
ghost use Rattle.std.specs.Prelude.{◌≡◌, ◌+◌, ◌*◌, ◌≤◌, true, length};
ghost use Rattle.market.specs.Limits.{max_deals};
ghost use Rattle.market.specs.Deals.{deal_sound};
ghost use Rattle.market.specs.Ledger.{first_deals, records_sound};
ghost use Rattle.market.proofs.Known.{RulesOk};
ghost use Rattle.script.specs.Rooms.{Adds, deal_room, records_room};

use amounts::sum_for;
use dealings::part_of;
use deals::records_sound;
use market::{Deal, MAX_RATE, Records, Rules};
use printing::put_worded;
use soundness::{counts_sound, table_sound};

// Are the rules sound? Those of every sound state are.
fn rules_sound(rules: &Rules) -> bool
    ensures { result ≡ true → RulesOk rules.now }
{
    counts_sound(rules.participants, rules.currencies, rules.securities)
        && table_sound(rules.currencies, rules.securities, rules.table)
        && rules.rate <= MAX_RATE
}

// S1.
fn first_sum(rules: &Rules, deal: Deal) -> u64
    requires { RulesOk rules.now × (deal_sound rules.now deal ≡ true) }
{
    let row = rules.table[usize::from(deal.security)];
    sum_for(row, u64::from(deal.price), u64::from(deal.lots))
}

fn put_deal(out: &mut [u8], at: usize, place: u64, rules: &Rules, deal: Deal) -> usize
    requires rules_ok { RulesOk rules.now × (deal_sound rules.now deal ≡ true) }
    requires deal_room_in_bounds { at + deal_room ≤ length out.old }
    ensures { Adds deal_room out.old at out.new result }
{
    let part = part_of(rules, deal);
    let numbers = [
        place,
        part.buyer,
        part.seller,
        part.security,
        u64::from(deal.lots),
        u64::from(deal.price),
        u64::from(deal.rate),
        u64::from(deal.first),
        part.due,
        first_sum(rules, deal),
        part.sum,
    ];
    put_worded(out, at, b"DEAL", &numbers)
}

// The open deals, oldest first; places count from 1.
fn put_deals(out: &mut [u8], at: usize, rules: &Rules, records: &Records) -> usize
    requires rules_ok { RulesOk rules.now }
    requires deals_value { records_sound rules.now records.now.date (first_deals records.now.count records.now.deals) ≡ true }
    requires deal_room_in_bounds { at + max_deals * deal_room ≤ length out.old }
    ensures { Adds (max_deals * deal_room) out.old at out.new result }
{
    let mut end = at;
    for (i, deal) in records.deals[..records.count].iter().enumerate() {
        end = put_deal(out, end, i as u64 + 1, rules, *deal);
    }
    end
}

// Date and open deals; what unsound deals cost isn't reckoned.
pub fn put_records(out: &mut [u8], at: usize, rules: &Rules, records: &Records) -> usize
    requires { at + records_room ≤ length out.old }
    ensures { Adds records_room out.old at out.new result }
{
    let end = put_worded(out, at, b"DATE", &[records.date]);
    if rules_sound(rules) && records_sound(rules, records) {
        put_deals(out, end, rules, records)
    } else {
        end
    }
}
