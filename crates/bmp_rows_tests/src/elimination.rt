//! Elimination: small systems worked out by hand, and random ones judged by multiplying, over each kind of rows.
ghost use Rattle.std.specs.Prelude.{◌≡◌, ◌<◌, IfOk};
ghost use Rattle.bmp_math.specs.Matrices.{Matrix, NumbersBelow};
ghost use Rattle.bmp_field.specs.PrimeFields.{size_of};

use crate::growing::judge_growth;
use crate::plain::{Plain, multiplies, rank};
use bmp_elim::{Solution, echelon, extend_basis, extend_columns, kernel, reduce, solve};
use bmp_field::{Field, PrimeField};
use bmp_linear::{
    DenseRows, KernelEvidence, MixedRows, Places, RowSpace, Rows, Scratch, SparseRows, Turned,
    Vector, Vectors, check_kernel, stored,
};
use std::alloc::{AllocError, Global};
use std::test::Fail;

/// What a judge answers where all is as it should be. Otherwise it names what isn't.
pub(crate) const RIGHT: &str = "right";

/// The first claim that doesn't hold.
pub(crate) fn judged(claims: &[(bool, &'static str)]) -> &'static str {
    for (holds, name) in claims {
        if !*holds {
            return *name;
        }
    }
    RIGHT
}

/// The first of two judgements that isn't right.
pub(crate) fn worse(first: &'static str, second: &'static str) -> &'static str {
    if first == RIGHT { second } else { first }
}

/// How rows are made: kept as those of `like` are, and where they are `turned`, stored from a view of their columns.
#[derive(Drop)]
struct Way<A: Drop> {
    like: A,
    turned: bool,
}

/// The matrix as rows that are kept as those of `like` are.
fn pushed<A: RowSpace<PrimeField>>(
    alloc: Global,
    f: &PrimeField,
    like: &A,
    plain: &Plain,
) -> Result<A, AllocError>
    ensures { IfOk result (λ a. NumbersBelow (size_of f.now) (A.matrix a)) }
{
    let mut a = like.empty(plain.cols);
    for i in 0..plain.rows {
        let row = plain.vector(alloc, i)?;
        if row.fits(a.cols()) && row.is_below(f.size()) {
            a.push_row(f, &row)?;
        }
    }
    Ok(a)
}

/// The matrix as rows that are made in this way.
fn rows_of<A: RowSpace<PrimeField>>(
    alloc: Global,
    f: &PrimeField,
    way: &Way<A>,
    plain: &Plain,
) -> Result<A, AllocError>
    ensures { IfOk result (λ a. NumbersBelow (size_of f.now) (A.matrix a)) }
{
    if !way.turned {
        let rows = pushed(alloc, f, &way.like, plain)?;
        return Ok(rows);
    }
    let columns = pushed(alloc, f, &way.like, &plain.turned(alloc)?)?;
    let rows = stored(alloc, f, &Turned::of(&columns), &way.like)?;
    Ok(rows)
}

/// The rows as a plain matrix.
pub(crate) fn plain_of<A: Rows<PrimeField>>(
    alloc: Global,
    f: &PrimeField,
    a: &A,
) -> Result<Plain, AllocError>
    requires { NumbersBelow (size_of f.now) (A.matrix a.now) }
{
    let mut numbers = Vec::new(alloc);
    for i in 0..a.rows() {
        for j in 0..a.cols() {
            numbers.push(a.at(f, i, j))?;
        }
    }
    Plain::of(alloc, a.rows(), a.cols(), &numbers)
}

/// The vector as the row of a plain matrix.
pub(crate) fn plain_vector(alloc: Global, cols: u32, vector: &Vector) -> Result<Plain, AllocError> {
    let mut plain = Plain::of(alloc, 0, cols, &[])?;
    plain.push_vector(vector)?;
    Ok(plain)
}

/// The vectors as the rows of a plain matrix.
fn plain_vectors(alloc: Global, cols: u32, vectors: &Vectors) -> Result<Plain, AllocError> {
    let mut plain = Plain::of(alloc, 0, cols, &[])?;
    for vector in vectors.as_slice() {
        plain.push_vector(vector)?;
    }
    Ok(plain)
}

/// Whether the rows are in reduced echelon form with these pivots.
fn is_echelon(a: &Plain, pivots: &Places) -> bool {
    let mut least = 0;
    for i in 0..a.rows {
        if i >= pivots.len() {
            if a.leading(i) != a.cols {
                return false;
            }
        } else {
            let pivot = pivots.at(i);
            if a.leading(i) != pivot || pivot < least || !a.is_unit_column(pivot, i) {
                return false;
            }
            least = pivot.wrapping_add(1);
        }
    }
    pivots.len() <= a.rows
}

/// Reduced rows, their trace and their pivots, by multiplying.
pub(crate) fn judge_traced(
    alloc: Global,
    p: u8,
    old: &Plain,
    new: &Plain,
    trace: &Plain,
    pivots: &Places,
) -> Result<&'static str, AllocError> {
    Ok(judged(&[
        ((new.rows, new.cols) == (old.rows, old.cols), "sizes"),
        (
            (trace.rows, trace.cols) == (old.rows, old.rows),
            "sizes of the trace",
        ),
        (is_echelon(new, pivots), "echelon"),
        (multiplies(p, trace, &old.turned(alloc)?, new), "trace"),
        (rank(alloc, p, trace)? == old.rows, "rank of the trace"),
        (rank(alloc, p, old)? == pivots.len(), "rank"),
    ]))
}

fn judge_reduce<A: RowSpace<PrimeField>>(
    alloc: Global,
    f: &PrimeField,
    p: u8,
    way: &Way<A>,
    old: &Plain,
) -> Result<&'static str, AllocError> {
    let reduced = reduce(alloc, f, rows_of(alloc, f, way, old)?)?;
    let new = plain_of(alloc, f, &reduced.rows)?;
    let trace = plain_of(alloc, f, &reduced.trace)?;
    judge_traced(alloc, p, old, &new, &trace, &reduced.pivots)
}

/// The rows that are reduced without a trace are those that are reduced with one.
fn judge_echelon<A: RowSpace<PrimeField>>(
    alloc: Global,
    f: &PrimeField,
    way: &Way<A>,
    old: &Plain,
) -> Result<&'static str, AllocError> {
    let reduced = reduce(alloc, f, rows_of(alloc, f, way, old)?)?;
    let bare = echelon(alloc, f, rows_of(alloc, f, way, old)?)?;
    let rows = plain_of(alloc, f, &bare.rows)?;
    Ok(judged(&[
        (is_echelon(&rows, &bare.pivots), "echelon without a trace"),
        (
            rows.is_same(&plain_of(alloc, f, &reduced.rows)?),
            "rows without a trace",
        ),
    ]))
}

/// Whether `check_kernel` accepts the evidence.
fn is_accepted<A: Rows<PrimeField>>(
    alloc: Global,
    f: &PrimeField,
    a: &A,
    e: &KernelEvidence,
) -> Result<bool, AllocError>
    requires { NumbersBelow (size_of f.now) (A.matrix a.now) }
{
    let mut s = Scratch::new(alloc, u64::from(a.rows().max(a.cols())))?;
    if u64::from(a.rows()) > s.len() || u64::from(a.cols()) > s.len() {
        return Ok(false);
    }
    if !e.fits(a.rows(), a.cols()) || !e.is_below(f.size()) {
        return Ok(false);
    }
    Ok(check_kernel(f, a, e, &mut s).is_ok())
}

/// `check_kernel` accepts the evidence, over a view of the columns too, and it has as many vectors as
/// the rank asks.
fn judge_kernel<A: RowSpace<PrimeField>>(
    alloc: Global,
    f: &PrimeField,
    p: u8,
    way: &Way<A>,
    old: &Plain,
) -> Result<&'static str, AllocError> {
    let a = rows_of(alloc, f, way, old)?;
    let columns = pushed(alloc, f, &way.like, &old.turned(alloc)?)?;
    let e = kernel(alloc, f, &a)?;
    let rank = rank(alloc, p, old)?;
    Ok(judged(&[
        (e.pivots.len() == rank, "pivots"),
        (e.basis.len() == old.cols.wrapping_sub(rank), "basis"),
        (is_accepted(alloc, f, &a, &e)?, "evidence"),
        (
            is_accepted(alloc, f, &Turned::of(&columns), &e)?,
            "evidence of turned rows",
        ),
    ]))
}

/// An answer by multiplying. `columns` are those of the system, and `right` is the right side.
fn judge_answer(
    alloc: Global,
    p: u8,
    columns: &Plain,
    right: &Plain,
    raised: bool,
    solution: &Solution,
) -> Result<&'static str, AllocError> {
    match solution {
        Solution::Found(x) => {
            let answer = plain_vector(alloc, columns.rows, x)?;
            let solves = multiplies(p, &answer, &columns.turned(alloc)?, right);
            Ok(judged(&[(!raised, "a solution"), (solves, "solution")]))
        }
        Solution::Without(y) => {
            let answer = plain_vector(alloc, columns.cols, y)?;
            let none = Plain::zeros(alloc, 1, columns.rows)?;
            Ok(judged(&[
                (raised, "no solution"),
                (multiplies(p, &answer, columns, &none), "combined rows"),
                (answer.says(p, 0, right, 0) != 0, "combined right sides"),
            ]))
        }
    }
}

/// The answer by multiplying, and a solution exactly where the right side doesn't raise the rank. The right
/// side is the last column of `whole`, and the system the others.
fn judge_solve<A: RowSpace<PrimeField>>(
    alloc: Global,
    f: &PrimeField,
    p: u8,
    way: &Way<A>,
    whole: &Plain,
) -> Result<&'static str, AllocError> {
    let columns = whole.turned(alloc)?;
    let last = columns.rows.saturating_sub(1);
    let left = columns.part(alloc, 0, last)?;
    let right = columns.part(alloc, last, columns.rows)?;
    let a = rows_of(alloc, f, way, &left.turned(alloc)?)?;
    let b = right.vector(alloc, 0)?;
    if !b.fits(a.rows()) || !b.is_below(f.size()) {
        return Ok("right side");
    }
    let raised = rank(alloc, p, whole)? != rank(alloc, p, &left)?;
    judge_answer(alloc, p, &left, &right, raised, &solve(alloc, f, &a, &b)?)
}

/// Whether each form says 0 of each row, but 1 of the row of its own number where there are `own` ones.
fn are_said(p: u8, forms: &Plain, rows: &Plain, own: bool) -> bool {
    for i in 0..forms.rows {
        for k in 0..rows.rows {
            if forms.says(p, i, rows, k) != u8::from(own && i == k) {
                return false;
            }
        }
    }
    true
}

/// The choice and its forms by multiplying and by ranks. The span is that of the first `count` rows.
fn judge_extend<A: RowSpace<PrimeField>>(
    alloc: Global,
    f: &PrimeField,
    p: u8,
    way: &Way<A>,
    whole: &Plain,
    count: u32,
) -> Result<&'static str, AllocError> {
    let first = whole.part(alloc, 0, count)?;
    let rest = whole.part(alloc, count, whole.rows)?;
    let span = rows_of(alloc, f, way, &first)?;
    let vectors = rows_of(alloc, f, way, &rest)?;
    if span.cols() != vectors.cols() {
        return Ok("columns");
    }
    let extension = extend_basis(alloc, f, &span, &vectors)?;
    let chosen = rest.picked(alloc, extension.chosen.as_slice())?;
    let duals = plain_vectors(alloc, whole.cols, &extension.duals)?;
    let mut both = whole.part(alloc, 0, count)?;
    for k in 0..chosen.rows {
        both.push_row_of(&chosen, k)?;
    }
    let combinations = plain_vectors(alloc, both.rows, &extension.combinations)?;
    let rank_of_whole = rank(alloc, p, whole)?;
    Ok(judged(&[
        (duals.rows == chosen.rows, "number of forms"),
        (combinations.rows == rest.rows, "number of combinations"),
        (
            multiplies(p, &combinations, &both.turned(alloc)?, &rest),
            "combinations",
        ),
        (
            are_said(p, &duals, &chosen, true),
            "forms on the chosen rows",
        ),
        (are_said(p, &duals, &first, false), "forms on the span"),
        (
            rank(alloc, p, &both)? == rank_of_whole,
            "rank of the chosen rows",
        ),
        (
            rank(alloc, p, &first)?.wrapping_add(chosen.rows) == rank_of_whole,
            "number of chosen rows",
        ),
    ]))
}

/// The same of columns: those behind the first half, by the forms and sums of the columns that are kept.
fn judge_columns<A: RowSpace<PrimeField>>(
    alloc: Global,
    f: &PrimeField,
    p: u8,
    way: &Way<A>,
    whole: &Plain,
) -> Result<&'static str, AllocError> {
    let columns = whole.turned(alloc)?;
    let split = columns.rows / 2;
    let a = rows_of(alloc, f, way, whole)?;
    if split > a.cols() {
        return Ok("columns");
    }
    let extension = extend_columns(alloc, f, a, split)?;
    let first = columns.part(alloc, 0, split)?;
    let rest = columns.part(alloc, split, columns.rows)?;
    let chosen = rest.picked(alloc, extension.chosen.as_slice())?;
    let mut kept = columns.part(alloc, 0, split)?;
    for k in 0..chosen.rows {
        kept.push_row_of(&chosen, k)?;
    }
    let duals = plain_vectors(alloc, whole.rows, &extension.duals)?;
    let sums = plain_vectors(alloc, kept.rows, &extension.sums)?;
    Ok(judged(&[
        (duals.rows == chosen.rows, "number of column forms"),
        (sums.rows == rest.rows, "number of sums"),
        (
            are_said(p, &duals, &chosen, true),
            "forms on the chosen columns",
        ),
        (
            are_said(p, &duals, &first, false),
            "forms on the first columns",
        ),
        (multiplies(p, &sums, &kept.turned(alloc)?, &rest), "sums"),
    ]))
}

/// Rows of two numbers modulo 3, and the evidence of their kernel.
struct KernelRow {
    numbers: &'static [u8],
    pivots: &'static [u32],
    basis: &'static [u8],
    rows: &'static [u8],
}

const KERNELS: [KernelRow; 2] = [
    KernelRow {
        numbers: &[1, 2],
        pivots: &[0],
        basis: &[1, 1],
        rows: &[1],
    },
    KernelRow {
        numbers: &[0, 2],
        pivots: &[1],
        basis: &[1, 0],
        rows: &[2],
    },
];

fn judge_kernel_row<A: RowSpace<PrimeField>>(
    alloc: Global,
    f: &PrimeField,
    way: &Way<A>,
    row: &KernelRow,
) -> Result<&'static str, AllocError> {
    let a = rows_of(alloc, f, way, &Plain::of(alloc, 1, 2, row.numbers)?)?;
    let e = kernel(alloc, f, &a)?;
    Ok(judged(&[
        (e.pivots.as_slice() == row.pivots, "pivots"),
        (
            plain_vectors(alloc, 2, &e.basis)?.numbers() == row.basis,
            "basis",
        ),
        (
            plain_vectors(alloc, 1, &e.rows)?.numbers() == row.rows,
            "rows",
        ),
    ]))
}

/// The rows (1, 2), (2, 1) modulo 3 with a right side, and the answer: a solution, or a form that refuses it.
struct SystemRow {
    right: [u8; 2],
    solvable: bool,
    answers: [[u8; 2]; 2],
}

const SYSTEMS: [SystemRow; 2] = [
    SystemRow {
        right: [1, 0],
        solvable: false,
        answers: [[1, 1], [2, 2]],
    },
    SystemRow {
        right: [1, 2],
        solvable: true,
        answers: [[1, 0], [1, 0]],
    },
];

fn judge_system_row<A: RowSpace<PrimeField>>(
    alloc: Global,
    f: &PrimeField,
    way: &Way<A>,
    row: &SystemRow,
) -> Result<&'static str, AllocError> {
    let a = rows_of(alloc, f, way, &Plain::of(alloc, 2, 2, &[1, 2, 2, 1])?)?;
    let b = Plain::of(alloc, 1, 2, &row.right)?.vector(alloc, 0)?;
    if !b.fits(a.rows()) || !b.is_below(f.size()) {
        return Ok("right side");
    }
    let (found, answer) = match solve(alloc, f, &a, &b)? {
        Solution::Found(x) => (true, x),
        Solution::Without(y) => (false, y),
    };
    let plain = plain_vector(alloc, 2, &answer)?;
    let [first, second] = row.answers;
    let answers = plain.numbers() == first.as_slice() || plain.numbers() == second.as_slice();
    Ok(judged(&[
        (answers, "answer"),
        (found == row.solvable, "whether there is a solution"),
    ]))
}

/// Two rows of two numbers modulo 2, and what extends the span of (1, 1) by them.
struct ExtensionRow {
    numbers: [u8; 4],
    chosen: &'static [u32],
    duals: &'static [u8],
    combinations: &'static [u8],
}

const EXTENSIONS: [ExtensionRow; 2] = [
    ExtensionRow {
        numbers: [1, 0, 0, 1],
        chosen: &[0],
        duals: &[1, 1],
        combinations: &[0, 1, 1, 1],
    },
    ExtensionRow {
        numbers: [1, 1, 0, 0],
        chosen: &[],
        duals: &[],
        combinations: &[1, 0],
    },
];

fn judge_extension_row<A: RowSpace<PrimeField>>(
    alloc: Global,
    f: &PrimeField,
    way: &Way<A>,
    row: &ExtensionRow,
) -> Result<&'static str, AllocError> {
    let span = rows_of(alloc, f, way, &Plain::of(alloc, 1, 2, &[1, 1])?)?;
    let vectors = rows_of(alloc, f, way, &Plain::of(alloc, 2, 2, &row.numbers)?)?;
    if span.cols() != vectors.cols() {
        return Ok("columns");
    }
    let extension = extend_basis(alloc, f, &span, &vectors)?;
    let duals = plain_vectors(alloc, 2, &extension.duals)?;
    let wide = extension.chosen.len().wrapping_add(1);
    let combinations = plain_vectors(alloc, wide, &extension.combinations)?;
    Ok(judged(&[
        (extension.chosen.as_slice() == row.chosen, "chosen"),
        (duals.numbers() == row.duals, "duals"),
        (combinations.numbers() == row.combinations, "combinations"),
    ]))
}

/// The first row of the tables that isn't answered right.
fn judge_tables<A: RowSpace<PrimeField>>(
    alloc: Global,
    two: &PrimeField,
    three: &PrimeField,
    like: A,
    turned: bool,
) -> Result<&'static str, AllocError> {
    let way = Way { like, turned };
    let mut found = RIGHT;
    for row in &KERNELS {
        found = worse(found, judge_kernel_row(alloc, three, &way, row)?);
    }
    for row in &SYSTEMS {
        found = worse(found, judge_system_row(alloc, three, &way, row)?);
    }
    for row in &EXTENSIONS {
        found = worse(found, judge_extension_row(alloc, two, &way, row)?);
    }
    Ok(found)
}

#[test]
fn worked_rows(rt: HostRuntime) -> Result<(), Fail> {
    let alloc = rt.alloc();
    let two = PrimeField::new(2).ok().ok_or("2")?;
    let three = PrimeField::new(3).ok().ok_or("3")?;
    for turned in [false, true] {
        let found = [
            judge_tables(alloc, &two, &three, DenseRows::new(alloc, 0), turned)?,
            judge_tables(alloc, &two, &three, SparseRows::new(alloc, 0), turned)?,
            judge_tables(alloc, &two, &three, MixedRows::new(alloc, 0), turned)?,
        ];
        assert_eq!(rt;
            found,
            [RIGHT; 3],
            "dense, sparse, mixed rows, turned: {turned}"
        );
    }
    Ok(())
}

/// Numbers by chance, the same in every run.
#[derive(Drop)]
pub(crate) struct Chance {
    pub(crate) state: u64,
}

impl Chance {
    /// A number below `bound`, and 0 where that is 0.
    fn below(&mut self, bound: u8) -> u8 {
        self.state = self
            .state
            .wrapping_mul(6364136223846793005)
            .wrapping_add(1442695040888963407);
        ((self.state >> 33) % u64::from(bound.max(1))) as u8
    }

    /// A matrix. Each number is 0 `zeros` times of 4, and beyond; where `repeats`, each second row is a
    /// multiple of the one before it.
    pub(crate) fn matrix(
        &mut self,
        alloc: Global,
        p: u8,
        shape: (u32, u32),
        zeros: u8,
        repeats: bool,
    ) -> Result<Plain, AllocError> {
        let (rows, cols) = shape;
        let mut numbers = Vec::new(alloc);
        for i in 0..rows {
            let factor = u32::from(self.below(p));
            for _ in 0..cols {
                let number = self.below(p);
                let above = numbers.len().checked_sub(cols as usize);
                if self.below(4) < zeros {
                    numbers.push(0)?;
                } else if repeats && i % 2 == 1 {
                    let before = match above {
                        Some(k) => numbers.get(k).copied().unwrap_or(0),
                        None => 0,
                    };
                    numbers.push((factor * u32::from(before) % u32::from(p.max(1))) as u8)?;
                } else {
                    numbers.push(number)?;
                }
            }
        }
        Plain::of(alloc, rows, cols, &numbers)
    }
}

/// What the judges say of one matrix.
fn judge<A: RowSpace<PrimeField>>(
    alloc: Global,
    f: &PrimeField,
    p: u8,
    way: &Way<A>,
    whole: &Plain,
) -> Result<&'static str, AllocError> {
    let mut found = judge_reduce(alloc, f, p, way, whole)?;
    found = worse(found, judge_echelon(alloc, f, way, whole)?);
    found = worse(found, judge_kernel(alloc, f, p, way, whole)?);
    found = worse(found, judge_solve(alloc, f, p, way, whole)?);
    found = worse(
        found,
        judge_extend(alloc, f, p, way, whole, whole.rows / 2)?,
    );
    Ok(worse(found, judge_columns(alloc, f, p, way, whole)?))
}

const PRIMES: [u8; 7] = [2, 3, 5, 7, 11, 13, 61];

const SHAPES: [(u32, u32); 11] = [
    (0, 0),
    (0, 4),
    (4, 0),
    (1, 1),
    (5, 5),
    (3, 8),
    (8, 3),
    (6, 6),
    (9, 40),
    (40, 9),
    (64, 64),
];

/// What the judges say of one matrix over rows that are pushed, and over rows that are turned.
fn judge_rows<A: RowSpace<PrimeField>>(
    alloc: Global,
    f: &PrimeField,
    p: u8,
    like: A,
    whole: &Plain,
) -> Result<&'static str, AllocError> {
    let mut way = Way {
        like,
        turned: false,
    };
    let mut found = judge_growth(alloc, f, p, &way.like, whole)?;
    found = worse(found, judge(alloc, f, p, &way, whole)?);
    way.turned = true;
    Ok(worse(found, judge(alloc, f, p, &way, whole)?))
}

/// How many times of 4 a number is 0, and whether rows repeat.
const KINDS: [(u8, bool); 3] = [(0, false), (3, false), (0, true)];

#[test]
fn random_matrices(rt: HostRuntime) -> Result<(), Fail> {
    let alloc = rt.alloc();
    let mut chance = Chance { state: 1 };
    for p in PRIMES {
        let f = PrimeField::new(p).ok().ok_or("no prime")?;
        for shape in SHAPES {
            for (zeros, repeats) in KINDS {
                let whole = chance.matrix(alloc, p, shape, zeros, repeats)?;
                let found = [
                    judge_rows(alloc, &f, p, DenseRows::new(alloc, 0), &whole)?,
                    judge_rows(alloc, &f, p, SparseRows::new(alloc, 0), &whole)?,
                    judge_rows(alloc, &f, p, MixedRows::new(alloc, 0), &whole)?,
                ];
                assert_eq!(rt;
                    found,
                    [RIGHT; 3],
                    "modulo {p}, {shape:?}, {zeros} zeros of 4"
                );
            }
        }
    }
    Ok(())
}
