//! Labels: linear forms that are not zero, in at most 6 variables over the numbers below a prime.
ghost use Rattle.std.specs.Prelude.{◌≡◌, ℕ, suc, ◌+◌, ◌-◌, ◌<◌, ◌≤◌, ◌↔◌, length, slice_index, IsTrue, MatchOption, IfOk, IfErr};
ghost use Rattle.bmp_poly.specs.Coordinates.{Fits, EachFits, IsFirstMisfit, IsZero, IsFirstNonzero, IsLeading};

/// A linear form that is not zero. It is homogeneous of degree 1.
#[derive(Debug, Clone, Copy, PartialEq, Eq)]
pub struct Label {
    pub(crate) prime: u8,
    pub(crate) rank: u8,
    pub(crate) leading: u8,
    pub(crate) coords: [u8; 6],
    pub ghost leads: { IsLeading prime rank leading coords },
    pub ghost six: { length coords ≡ 6 },
}

/// Why coordinates make no label.
#[derive(Debug, Clone, Copy, PartialEq, Eq)]
pub enum LabelFault {
    /// The first place, from 0, whose coordinate is not below the prime, or not 0 past the rank.
    Value { place: u8 },
    /// All coordinates are 0.
    Zero,
}

fn fits(prime: u8, rank: u8, place: u8, number: u8) -> bool
    ensures { IsTrue result ↔ Fits prime rank place number }
{
    if place < rank {
        number < prime
    } else {
        number == 0
    }
}

fn first_misfit(prime: u8, rank: u8, coords: &[u8; 6]) -> Option<u8>
    requires { rank ≤ 6 }
    ensures { MatchOption result (EachFits prime rank coords.now) (IsFirstMisfit prime rank coords.now) }
{
    for place in 0..6 {
        if !fits(prime, rank, place, coords[place as usize]) {
            return Some(place);
        }
    }
    None
}

fn first_nonzero(coords: &[u8; 6]) -> Option<u8>
    ensures { MatchOption result (IsZero coords.now) (IsFirstNonzero coords.now) }
{
    for place in 0..6 {
        if coords[place as usize] != 0 {
            return Some(place);
        }
    }
    None
}

impl Label {
    ghost use Rattle.bmp_poly.specs.Labels.{prime_of, rank_of, coordinates_of, coordinate_of, leading_of, IsLabelOf, IsFault};

    /// The label with these coordinates. Places past the rank are 0.
    ///
    /// A coordinate that does not fit is reported before a form that is zero.
    pub fn new(prime: u8, rank: u8, coords: [u8; 6]) -> Result<Label, LabelFault>
        requires some { 0 < rank }
        requires rank { rank ≤ 6 }
        ensures ok { IfOk result (IsLabelOf prime rank coords) }
        ensures fault { IfErr result (IsFault prime rank coords) }
    {
        if let Some(place) = first_misfit(prime, rank, &coords) {
            return Err(LabelFault::Value { place });
        }
        match first_nonzero(&coords) {
            Some(leading) => Ok(Label {
                prime,
                rank,
                leading,
                coords,
            }),
            None => Err(LabelFault::Zero),
        }
    }

    /// The least variable, counted from 1, whose coordinate is not 0.
    pub fn leading(&self) -> u8
        ensures leading { result ≡ leading_of self.now + 1 }
        ensures leads { IsLeading (prime_of self.now) (rank_of self.now) (leading_of self.now)
            (coordinates_of self.now) }
    {
        self.leading + 1
    }

    /// The number of variables, from 1 to 6.
    pub fn rank(&self) -> u8
        ensures { result ≡ rank_of self.now }
    {
        self.rank
    }

    pub fn prime(&self) -> u8
        ensures { result ≡ prime_of self.now }
    {
        self.prime
    }

    /// The coordinate of the variable `i`, counted from 1.
    pub fn coordinate(&self, i: u8) -> u8
        requires some { 0 < i }
        requires variable { i ≤ rank_of self.now }
        ensures { result ≡ coordinate_of self.now (i - 1) }
    {
        self.coords[(i - 1) as usize]
    }
}
