// The total of some values: their number, sum, least and greatest.
ghost use Rattle.std.specs.Prelude.{◌≡◌, ◌^◌, IfSome, Some};
ghost use Rattle.std.specs.Option.{option_map};
ghost use Rattle.olap_base.specs.Summaries.{joined, of_value, ◌⊕◌};
ghost use Rattle.olap_view.specs.Bounds.{IsJoinable};
ghost use Rattle.olap_view.specs.Seen.{columns_of, summary_of};

use crate::Row;

/// The total of some values: their number, sum, least and greatest.
#[derive(Clone, Copy, PartialEq, Eq)]
pub struct Summary {
    /// How many they are.
    pub count: u64,
    /// Their sum.
    pub sum: i128,
    /// The least of them.
    pub least: i64,
    /// The greatest of them.
    pub greatest: i64,
}

impl Summary {
    /// The total of one value.
    #[inline(always)]
    pub fn of_value(value: i64) -> Summary
        ensures { summary_of result ≡ of_value value }
    {
        Summary {
            count: 1,
            sum: i128::from(value),
            least: value,
            greatest: value,
        }
    }

    /// The total of two lots of values together.
    #[inline(always)]
    pub fn joined(self, other: Summary) -> Summary
        requires this { IsJoinable (summary_of self) }
        requires that { IsJoinable (summary_of other) }
        ensures { summary_of result ≡ joined (summary_of self) (summary_of other) }
    {
        Summary {
            count: self.count + other.count,
            sum: self.sum + other.sum,
            least: self.least.min(other.least),
            greatest: self.greatest.max(other.greatest),
        }
    }

    /// The summary joined to what is there, if there is anything.
    #[inline(always)]
    pub fn beside(self, there: Option<Summary>) -> Summary
        requires this { IsJoinable (summary_of self) }
        requires there { IfSome (option_map summary_of there) IsJoinable }
        ensures { Some (summary_of result) ≡ option_map summary_of there ⊕ Some (summary_of self) }
    {
        match there {
            None => self,
            Some(s) => s.joined(self),
        }
    }
}

impl Row {
    /// The summary in the row's columns.
    pub(crate) fn summary(&self) -> Summary
        ensures { summary_of result ≡ columns_of self.now }
    {
        Summary {
            count: self.count,
            sum: self.sum,
            least: self.least,
            greatest: self.greatest,
        }
    }
}
