// The numbers of stored rows, as fields spell them.
ghost use Rattle.std.specs.Option.{option_map};
ghost use Rattle.std.specs.Prelude.{◌≡◌, ◌==◌, ◌<◌, ◌≤◌, ◌≤ℤ◌, ℕ, IfSome, length, neg_ℤ, pos, slice_index};
ghost use Rattle.olap_base.specs.Limits.{most_count, most_sum};
ghost use Rattle.olap_view.specs.NumbersInside.{digits_of, wide_of};
ghost use Rattle.olap_view.specs.Seen.{summary_of};
ghost use Rattle.olap_view.specs.StoreReading.{IsStoredAt};
ghost use Rattle.olap_view.specs.StoreText.{summary_read};
ghost use Rattle.olap_view.specs.StoredNumbers.{count_of, sum_of};

use crate::Summary;
use crate::fitting::{count_fits, sum_fits};
use olap_numerals::value;
use olap_records::Rows;

/// Whether a plus stands first.
fn has_plus(field: &[u8]) -> bool
    ensures { result ≡ (slice_index field.now 0 == 43) }
{
    match field {
        [first, ..] => *first == b'+',
        [] => false,
    }
}

/// The number of 64 bits that decimal digits alone spell.
fn digits(field: &[u8]) -> Option<u64>
    ensures { result ≡ digits_of field.now }
{
    if has_plus(field) {
        return None;
    }
    match str::from_utf8(field) {
        Ok(text) => text.parse::<u64>().ok(),
        Err(_) => None,
    }
}

/// The count that a field spells.
fn count(field: &[u8]) -> Option<u64>
    ensures value { result ≡ count_of field.now }
    ensures bounds { IfSome result (λ n. (1 ≤ n) × (n ≤ most_count)) }
{
    match digits(field) {
        Some(n) if count_fits(n) => Some(n),
        _ => None,
    }
}

/// The number of 128 bits that a field spells.
fn wide(field: &[u8]) -> Option<i128>
    ensures { result ≡ wide_of field.now }
{
    match str::from_utf8(field) {
        Ok(text) => text.parse::<i128>().ok(),
        Err(_) => None,
    }
}

/// The sum that a field spells.
fn sum(field: &[u8]) -> Option<i128>
    ensures value { result ≡ sum_of field.now }
    ensures bounds { IfSome result (λ z. (neg_ℤ (pos most_sum) ≤ℤ z) × (z ≤ℤ pos most_sum)) }
{
    match wide(field) {
        Some(z) if sum_fits(z) => Some(z),
        _ => None,
    }
}

/// The four numbers in the last fields of a row's record.
pub(crate) fn summary(rows: &Rows) -> Option<Summary>
    requires width { length rows.now.row ≡ 6 }
    ensures read { option_map summary_of result ≡ summary_read rows.now.row }
    ensures stored { IfSome result (λ s. (y : ℕ) → IsStoredAt y (summary_of s)) }
{
    let count = count(rows.field(2))?;
    let sum = sum(rows.field(3))?;
    let least = value(rows.field(4))?;
    let greatest = value(rows.field(5))?;
    Some(Summary {
        count,
        sum,
        least,
        greatest,
    })
}
