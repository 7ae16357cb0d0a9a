//! Free modules modulo a label, with a table of the label's normal forms.
ghost use Rattle.std.specs.Prelude.{◌≡◌, ◌↔◌, ℕ, ◌<◌, ◌≤◌, ◌^◌, ◌+◌, ◌-◌, ◌*◌, ◌%◌, All, IfOk, OnOk, IsTrue, List, length, sum, slice_index};
ghost use Rattle.bmp_poly.specs.Exponents.{IsMonomial, count};
ghost use Rattle.bmp_poly.specs.Coefficients.{coefficient};
ghost use Rattle.bmp_poly.specs.Labels.{prime_of, rank_of, leading_of, coordinate_of};
ghost use Rattle.bmp_graded.specs.Graded.{Graded, IsModule};
ghost use Rattle.bmp_graded.specs.Modules.{moved};
ghost use Rattle.bmp_graded.specs.Quotients.{quotient};
ghost use Rattle.bmp_module.specs.Appended.{IsAppended};
ghost use Rattle.bmp_module.specs.Components.{component_of};
ghost use Rattle.bmp_module.specs.Elements.{IsElement};
ghost use Rattle.bmp_module.specs.NormalTables.{label_of, degrees_of};
ghost use Rattle.bmp_module.specs.QuotientModules.{label_of as quotient_label_of};
ghost use Rattle.bmp_module.specs.Tables.{ArePlaces, combined};

use crate::coordinates::Coordinates;
use crate::graded::GradedModule;
use crate::normal_table::NormalTable;
use crate::quotient::Quotient;
use crate::{blocks, normal, pure};
use bmp_field::Field;
use bmp_poly::{Label, monomials, sums};
use std::alloc::{AllocError, Global};

/// Number `i` of the normal form of the sum of the `block`'s values times the monomials of degree `s` at `places`.
fn number_at<F: Field>(
    f: &F,
    table: &NormalTable,
    s: u32,
    places: &[u32],
    block: &[F::E],
    i: u32,
) -> F::E
    requires prime { F.size f.now ≡ prime_of (label_of table.now) }
    requires degree { s < degrees_of table.now }
    requires places { All (λ t. t < count (rank_of (label_of table.now)) s) places.now }
    requires sized { length block.now ≡ length places.now }
    requires values { All (F.is_value f.now) block.now }
    requires place { i < count (rank_of (label_of table.now) - 1) s }
    ensures value { F.is_value f.now result }
    ensures number { let x = label_of table.now in F.num f.now result ≡
        combined (prime_of x) (rank_of x) (coordinate_of x) (leading_of x) s (slice_index places.now)
        (coefficient (F.num f.now) block.now) (length block.now) i % F.size f.now }
{
    let mut total = f.zero();
    for k in 0..block.len() {
        let value = block[k];
        if f.num(value) != 0 {
            let number = table.column(s, places[k])[i as usize];
            total = f.add(total, f.mul(value, f.from_num(u32::from(number))));
        }
    }
    total
}

/// Makes `places` the places of `m` times the monomials of degree `degree` without the leading variable.
fn find_places(
    label: &Label,
    degree: u32,
    m: &[u8; 6],
    places: &mut Vec<u32>,
) -> Result<(), AllocError>
    requires degree { degree + sum m.now ≤ 6 }
    requires monomial { IsMonomial 6 (rank_of label.now) (sum m.now) m.now }
    ensures places { OnOk result (ArePlaces (rank_of label.now) (leading_of label.now) degree m.now
        (count (rank_of label.now - 1) degree) places.new.items) }
    ensures below { OnOk result (All (λ t. t < count (rank_of label.now) (degree + sum m.now)) places.new.items) }
{
    places.clear();
    let rank = label.rank();
    let leading = label.leading() - 1;
    let raised = degree + blocks::degree_of(m);
    for j in 0..blocks::count(rank - 1, degree) {
        let e = pure::monomial_without(rank, leading, degree, j);
        let product = monomials::joined(m, &e);
        places.push(monomials::place_of(rank, raised, &product))?;
    }
    Ok(())
}

/// Appends the coordinates of `m` times an element whose coordinates at one generator are `block`, by the table.
///
/// What `places` holds does not matter, before or after.
fn push_multiple<F: Field>(
    f: &F,
    table: &NormalTable,
    label: &Label,
    generator: u32,
    degree: u32,
    m: &[u8; 6],
    block: &[F::E],
    places: &mut Vec<u32>,
    numbers: &mut Vec<F::E>,
) -> Result<(), AllocError>
    requires by { label_of table.now ≡ label.now }
    requires table { degree + sum m.now < degrees_of table.now }
    requires prime { F.size f.now ≡ prime_of label.now }
    requires degree { degree + sum m.now ≤ 6 }
    requires monomial { IsMonomial 6 (rank_of label.now) (sum m.now) m.now }
    requires sized { length block.now ≡ (moved generator (component_of label.now)).dim degree }
    requires values { All (F.is_value f.now) block.now }
    requires numbers { All (F.is_value f.now) numbers.old.items }
    ensures { let M = moved generator (component_of label.now) in
        OnOk result (IsAppended (F.is_value f.now) (F.num f.now) numbers.old.items numbers.new.items
        (M.dim (degree + sum m.now))
        (λ i. M.act m.now degree (degree + sum m.now) (coefficient (F.num f.now) block.now) i % F.size f.now)) }
{
    let raised = degree + blocks::degree_of(m);
    if generator > degree {
        let zeros = blocks::block_length(label.rank() - 1, generator, raised);
        normal::push_zeros(f, u64::from(zeros), numbers)?;
        return Ok(());
    }
    find_places(label, degree - generator, m, places)?;
    let s = raised - generator;
    for i in 0..blocks::count(label.rank() - 1, s) {
        numbers.push(number_at(f, table, s, places, block, i))?;
    }
    Ok(())
}

/// The monomial `m` times `e`, by the table.
pub(crate) fn act_by_table<F: Field>(
    alloc: Global,
    f: &F,
    table: &NormalTable,
    over: &Quotient,
    m: [u8; 6],
    e: &Coordinates<F>,
) -> Result<Coordinates<F>, AllocError>
    requires by { label_of table.now ≡ quotient_label_of over.now }
    requires table { e.now.degree + sum m < degrees_of table.now }
    requires fits { F.size f.now ≡ prime_of (quotient_label_of over.now) }
    requires element { let x = quotient_label_of over.now in IsElement (F.is_value f.now)
        (quotient (prime_of x) (rank_of x - 1) (leading_of x) (coordinate_of x) over.now.free.degrees.items)
        e.now.degree e.now.numbers.items }
    requires monomial { IsMonomial 6 (rank_of (quotient_label_of over.now)) (sum m) m }
    requires degree { e.now.degree + sum m ≤ 6 }
    ensures element { let x = quotient_label_of over.now in IfOk result (λ r. IsElement (F.is_value f.now)
        (quotient (prime_of x) (rank_of x - 1) (leading_of x) (coordinate_of x) over.now.free.degrees.items)
        r.degree r.numbers.items) }
    ensures degree { IfOk result (λ r. r.degree ≡ e.now.degree + sum m) }
    ensures multiple { let x = quotient_label_of over.now in
        let M = quotient (prime_of x) (rank_of x - 1) (leading_of x) (coordinate_of x) over.now.free.degrees.items in
        let d = e.now.degree in let t = e.now.degree + sum m in
        IfOk result (λ r. (i : ℕ) → i < M.dim t → coefficient (F.num f.now) r.numbers.items i ≡
        M.act m d t (coefficient (F.num f.now) e.now.numbers.items) i % F.size f.now) }
{
    let mut places = Vec::new(alloc);
    let mut numbers = Vec::new(alloc);
    let mut start = 0;
    for g in &over.free.degrees {
        let end = start + blocks::block_length(over.free.rank - 1, *g, e.degree) as usize;
        let block = &e.numbers[start..end];
        push_multiple(
            f,
            table,
            &over.label,
            *g,
            e.degree,
            &m,
            block,
            &mut places,
            &mut numbers,
        )?;
        start = end;
    }
    let degree = e.degree + blocks::degree_of(&m);
    Ok(Coordinates { degree, numbers })
}

/// A quotient with a table of its label's normal forms, by which monomials act faster.
///
/// It is the module that the quotient is, with the same elements. Past the table's degrees it acts as the quotient
/// does.
#[derive(Drop)]
pub struct TabledQuotient<'a> {
    quotient: &'a Quotient,
    table: &'a NormalTable,
    ghost by: { label_of table.now ≡ quotient_label_of quotient.now },
}

impl<'a> TabledQuotient<'a> {
    /// The quotient with this table, which is by the quotient's label. Takes no memory.
    pub fn new(quotient: &'a Quotient, table: &'a NormalTable) -> TabledQuotient<'a>
        requires { label_of table.now ≡ quotient_label_of quotient.now }
        ensures { result.quotient.now ≡ quotient.now }
    {
        TabledQuotient { quotient, table }
    }
}

impl<F: Field> GradedModule<F> for TabledQuotient<'_> {
    type Elem = Coordinates<F>;

    ghost use Rattle.bmp_graded.proofs.CoordinateLemmas.{coefficient_small};
    ghost use Rattle.bmp_graded.proofs.PassLaws.{quotient_over};
    ghost use Rattle.bmp_field.specs.FieldLaws.{FieldLaws};

    ghost graded = { λ s. quotient s.quotient.now.label.prime (s.quotient.now.label.rank - 1)
        s.quotient.now.label.leading
        (slice_index s.quotient.now.label.coords) s.quotient.now.free.degrees.items };

    ghost rank = { λ s. s.quotient.now.label.rank };

    ghost fits = { λ s p. p ≡ s.quotient.now.label.prime };

    ghost is_element = { λ s f e. IsElement (F.is_value f)
        (quotient s.quotient.now.label.prime (s.quotient.now.label.rank - 1) s.quotient.now.label.leading
        (slice_index s.quotient.now.label.coords) s.quotient.now.free.degrees.items)
        e.degree e.numbers.items };

    ghost degree = { λ s e. e.degree };

    ghost coordinate = { λ s f e. coefficient (F.num f) e.numbers.items };

    fn dim(&self, d: u32) -> u64 {
        <Quotient as GradedModule<F>>::dim(self.quotient, d)
    }

    fn degree(&self, e: &Coordinates<F>) -> u32 {
        e.degree
    }

    fn zero(&self, alloc: Global, f: &F, d: u32) -> Result<Coordinates<F>, AllocError> {
        let zero = self.quotient.zero(alloc, f, d)?;
        Ok(zero)
    }

    fn add_in(&self, f: &F, into: &mut Coordinates<F>, other: &Coordinates<F>) {
        sums::add_coefficients(f, &mut into.numbers, &other.numbers);
    }

    fn scale_in(&self, f: &F, into: &mut Coordinates<F>, c: F::E) {
        sums::scale_coefficients(f, &mut into.numbers, c);
    }

    fn act(
        &self,
        alloc: Global,
        f: &F,
        m: [u8; 6],
        e: &Coordinates<F>,
    ) -> Result<Coordinates<F>, AllocError> {
        if e.degree + blocks::degree_of(&m) >= self.table.degrees() {
            let multiple = self.quotient.act(alloc, f, m, e)?;
            return Ok(multiple);
        }
        let multiple = act_by_table(alloc, f, self.table, self.quotient, m, e)?;
        Ok(multiple)
    }

    fn coordinate(&self, f: &F, e: &Coordinates<F>, i: u64) -> F::E {
        e.coordinate(f, i)
    }

    fn same(&self, f: &F, a: &Coordinates<F>, b: &Coordinates<F>) -> bool {
        a.same(f, b)
    }

    ghost small = { λ s f e is. is.small };

    ghost numbers = { λ s f e is i below. coefficient_small (F.is_value f) (F.num f) (F.size f) e.numbers.items i
        (F.laws.below_size f) is.values (rw is.sized below) };

    ghost laws = { λ s f fits. quotient_over (F.size f) s.quotient.now.label.prime s.quotient.now.label.rank
        s.quotient.now.label.leading s.quotient.now.label.coords s.quotient.now.free.degrees.items fits
        (F.laws.at_least_two f) (F.laws.inverse f) s.quotient.now.label.leads };
}
