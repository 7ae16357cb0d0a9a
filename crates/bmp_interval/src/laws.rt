//! The laws of intervals, each the contract of a function without a body.
ghost use Rattle.bmp_interval.specs.Statements.{WordIsOnlyLongest, IntervalIsOne, IntervalOfIsOne};

/// A vertex of a reduced word is the product of the whole word, or shorter than it.
pub fn word_is_only_longest()
    ensures { WordIsOnlyLongest }
{}

/// A word has one interval, whatever the order in which the positive roots are listed.
pub fn interval_is_one()
    ensures { IntervalIsOne }
{}

/// Two root systems of one Cartan matrix give a word the same interval.
pub fn interval_of_is_one()
    ensures { IntervalOfIsOne }
{}
