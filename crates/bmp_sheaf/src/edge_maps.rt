//! The two maps of one edge, in one degree, as sparse rows.
ghost use Rattle.std.specs.Prelude.{◌≡◌, ℕ, ◌+◌, ◌-◌, ◌*◌, ◌^◌, ◌<◌, ◌≤◌, [], All, IfOk, OnOk, length, slice_index, slice_index_or};
ghost use Rattle.bmp_math.specs.Matrices.{SameMatrix};
ghost use Rattle.bmp_linear.specs.SparseVectors.{FitsBelow, ValuesBelow, number_at};
ghost use Rattle.bmp_linear.specs.RowTables.{matrix_of_entries};
ghost use Rattle.bmp_poly.specs.Labels.{prime_of, rank_of as label_rank_of, leading_of, coordinate_of};
ghost use Rattle.bmp_sheaf.specs.Coordinates.{stalk_count};
ghost use Rattle.bmp_sheaf.specs.Numbers.{edge_number};
ghost use Rattle.bmp_graded.specs.Modules.{free};
ghost use Rattle.bmp_graded.specs.Maps.{extension};
ghost use Rattle.bmp_module.specs.FreeModules.{rank_of, degrees_of};
ghost use Rattle.bmp_module.specs.Images.{AreImages, image_coordinates};
ghost use Rattle.bmp_module.specs.Columns.{matrix_of_map};
ghost use Rattle.bmp_module.specs.NormalTables.{label_of, degrees_of as table_degrees_of};
ghost use Rattle.bmp_module.specs.QuotientModules.{free_of, label_of as quotient_label_of};
ghost use Rattle.bmp_sheaf.specs.Units.{unit_element};
ghost use Rattle.bmp_sheaf.specs.EdgeModules.{AreImagesOf, lower_map_on};
ghost use Rattle.bmp_sheaf.specs.UpperTables.{upper_map_of};
ghost use Rattle.bmp_sheaf.specs.EdgeMaps.{LiftsFit, lift_by};

use bmp_field::Field;
use bmp_linear::{Entry, RowSpace, SparseRows, Vector};
use bmp_module::{
    Coordinates, Free, GradedModule, Linear, ModuleMap, NormalTable, Projection, Quotient,
    TabledQuotient,
};
use std::alloc::{AllocError, Global};

/// Makes the vector row `i` of the columns, each of as many numbers as there are rows.
fn fill_row(
    rows: usize,
    cols: u32,
    columns: &[u8],
    i: usize,
    row: &mut Vector,
) -> Result<(), AllocError>
    requires row { i < rows }
    requires sized { length columns.now ≡ cols * rows }
    ensures fits { OnOk result (FitsBelow row.new cols) }
    ensures numbers { OnOk result ((j : ℕ) → j < cols → number_at row.new j ≡ slice_index columns.now (j * rows + i)) }
    ensures values { OnOk result ((p : ℕ) → ((j : ℕ) → j < cols → slice_index columns.now (j * rows + i) < p)
        → ValuesBelow row.new p) }
{
    row.clear();
    for j in 0..cols {
        let value = columns[j as usize * rows + i];
        if value != 0 {
            row.push(Entry { place: j, value })?;
        }
    }
    Ok(())
}

/// The rows whose columns these are. Wants memory also where there are 2^32 or more rows or columns.
fn sparse_rows<F: Field>(
    alloc: Global,
    f: &F,
    rows: u64,
    cols: u64,
    columns: &[u8],
) -> Result<SparseRows<F>, AllocError>
    requires sized { length columns.now ≡ cols * rows }
    requires numbers { (i j : ℕ) → i < rows → j < cols → slice_index columns.now (j * rows + i) < F.size f.now }
    ensures { IfOk result (λ sparse. SameMatrix (matrix_of_entries sparse)
        (record { rows = rows; cols = cols; entry = λ i j. slice_index columns.now (j * rows + i) })) }
{
    if rows > u64::from(u32::MAX) || cols > u64::from(u32::MAX) {
        return Err(AllocError);
    }
    let mut sparse = SparseRows::new(alloc, cols as u32);
    let mut row = Vector::new(alloc);
    for i in 0..rows {
        fill_row(rows as usize, cols as u32, columns, i as usize, &mut row)?;
        sparse.push_row(f, &row)?;
    }
    Ok(sparse)
}

/// The matrix of a linear map in degree `d`: a row for each coordinate of the module that it leads to, a column for
/// each of the free module. Wants memory also where there are 2^32 or more coordinates.
fn rows_of<F: Field, N: GradedModule<F>>(
    alloc: Global,
    f: &F,
    from: &Free,
    over: &N,
    images: &[N::Elem],
    d: u32,
) -> Result<SparseRows<F>, AllocError>
    requires fits { N.fits over.now (F.size f.now) }
    requires rank { N.rank over.now ≡ rank_of from.now }
    requires images { AreImages (N.is_element over.now f.now) (N.degree over.now) (degrees_of from.now) images.now }
    requires degree { d ≤ 6 }
    requires small { (N.graded over.now).dim d < 2 ^ 64 }
    ensures { let M = N.graded over.now in let r = rank_of from.now in let gs = degrees_of from.now in
        IfOk result (λ sparse. SameMatrix (matrix_of_entries sparse) (matrix_of_map (F.size f.now) (free r gs) M
        (extension r M gs (image_coordinates (N.coordinate over.now f.now) images.now)) d)) }
{
    let map = Linear::new(from, over, images);
    let columns = map.columns(alloc, f, d)?;
    let cols = <Free as GradedModule<F>>::dim(from, d);
    let sparse = sparse_rows(alloc, f, over.dim(d), cols, &columns)?;
    Ok(sparse)
}

/// The generators of the module, as elements of its quotient.
pub(crate) fn generators<F: Field>(
    alloc: Global,
    f: &F,
    quotient: &Quotient,
) -> Result<Vec<Coordinates<F>>, AllocError>
    requires prime { F.size f.now ≡ prime_of (quotient_label_of quotient.now) }
    requires degrees { All (λ a. a ≤ 6) (degrees_of (free_of quotient.now)) }
    ensures { let x = quotient_label_of quotient.now in let into = degrees_of (free_of quotient.now) in
        IfOk result (λ images. AreImagesOf (⟦<Quotient as GradedModule<F>>⟧.is_element quotient.now f.now)
        (⟦<Quotient as GradedModule<F>>⟧.degree quotient.now)
        (⟦<Quotient as GradedModule<F>>⟧.coordinate quotient.now f.now)
        (edge_number (prime_of x) (label_rank_of x) (coordinate_of x) (leading_of x) into)
        (stalk_count (label_rank_of x - 1) into) (degrees_of (free_of quotient.now)) unit_element images.items) }
{
    let free = quotient.free();
    let projection = Projection::new(quotient);
    let mut images = Vec::with_capacity(alloc, free.generators() as usize)?;
    for g in 0..free.generators() {
        let generator = free.generator(alloc, f, g)?;
        let image = projection.apply(alloc, f, &generator)?;
        images.push(image)?;
    }
    Ok(images)
}

/// The lifts of the generators of `from`, as elements of the quotient.
pub(crate) fn lifted<F: Field>(
    alloc: Global,
    f: &F,
    quotient: &Quotient,
    from: &Free,
    lifts: &[Vector],
) -> Result<Vec<Coordinates<F>>, AllocError>
    requires prime { F.size f.now ≡ prime_of (quotient_label_of quotient.now) }
    requires degrees { All (λ a. a ≤ 6) (degrees_of from.now) }
    requires lifts { length lifts.now ≡ length (degrees_of from.now) }
    requires fit { LiftsFit (rank_of (free_of quotient.now)) (degrees_of from.now) (degrees_of (free_of quotient.now))
        lifts.now }
    requires values { All (λ v. ValuesBelow v (F.size f.now)) lifts.now }
    ensures { let x = quotient_label_of quotient.now in let into = degrees_of (free_of quotient.now) in
        IfOk result (λ images. AreImagesOf (⟦<Quotient as GradedModule<F>>⟧.is_element quotient.now f.now)
        (⟦<Quotient as GradedModule<F>>⟧.degree quotient.now)
        (⟦<Quotient as GradedModule<F>>⟧.coordinate quotient.now f.now)
        (edge_number (prime_of x) (label_rank_of x) (coordinate_of x) (leading_of x) into)
        (stalk_count (label_rank_of x - 1) into) (degrees_of from.now)
        (lift_by (label_rank_of x) (degrees_of from.now) into lifts.now) images.items) }
{
    let into = quotient.free();
    let projection = Projection::new(quotient);
    let mut images = Vec::with_capacity(alloc, from.generators() as usize)?;
    for g in 0..from.generators() {
        let a = from.degree_of(g);
        let mut numbers = vec![in alloc; 0; <Free as GradedModule<F>>::dim(into, a) as usize]?;
        lifts[g as usize].spread(&mut numbers);
        let lift = into.element(alloc, f, a, &numbers)?;
        let image = projection.apply(alloc, f, &lift)?;
        images.push(image)?;
    }
    Ok(images)
}

/// The map to an edge's module in degree `d` from the stalk at the lower end, by the images of its generators, which
/// are those by the lifts. The table is that of the module's label. Wants memory also where there are 2^32 or more
/// coordinates.
pub(crate) fn lower_rows<F: Field>(
    alloc: Global,
    f: &F,
    table: &NormalTable,
    quotient: &Quotient,
    from: &Free,
    lifts: &[Vector],
    images: &[Coordinates<F>],
    d: u32,
) -> Result<SparseRows<F>, AllocError>
    requires prime { F.size f.now ≡ prime_of (label_of table.now) }
    requires label { quotient_label_of quotient.now ≡ label_of table.now }
    requires from { rank_of from.now ≡ label_rank_of (label_of table.now) }
    requires degree { d < table_degrees_of table.now }
    requires images { let x = quotient_label_of quotient.now in let into = degrees_of (free_of quotient.now) in
        AreImagesOf (⟦<Quotient as GradedModule<F>>⟧.is_element quotient.now f.now)
        (⟦<Quotient as GradedModule<F>>⟧.degree quotient.now)
        (⟦<Quotient as GradedModule<F>>⟧.coordinate quotient.now f.now)
        (edge_number (prime_of x) (label_rank_of x) (coordinate_of x) (leading_of x) into)
        (stalk_count (label_rank_of x - 1) into) (degrees_of from.now)
        (lift_by (label_rank_of x) (degrees_of from.now) into lifts.now) images.now }
    ensures { IfOk result (λ rows. SameMatrix (matrix_of_entries rows)
        (lower_map_on table.now (free_of quotient.now) d (degrees_of from.now) lifts.now)) }
{
    let module = TabledQuotient::new(quotient, table);
    let rows = rows_of(alloc, f, from, &module, images, d)?;
    Ok(rows)
}

/// The same from the stalk at the upper end, which the module is a quotient of.
pub(crate) fn upper_rows<F: Field>(
    alloc: Global,
    f: &F,
    table: &NormalTable,
    quotient: &Quotient,
    images: &[Coordinates<F>],
    d: u32,
) -> Result<SparseRows<F>, AllocError>
    requires prime { F.size f.now ≡ prime_of (label_of table.now) }
    requires label { quotient_label_of quotient.now ≡ label_of table.now }
    requires degree { d < table_degrees_of table.now }
    requires images { let x = quotient_label_of quotient.now in let into = degrees_of (free_of quotient.now) in
        AreImagesOf (⟦<Quotient as GradedModule<F>>⟧.is_element quotient.now f.now)
        (⟦<Quotient as GradedModule<F>>⟧.degree quotient.now)
        (⟦<Quotient as GradedModule<F>>⟧.coordinate quotient.now f.now)
        (edge_number (prime_of x) (label_rank_of x) (coordinate_of x) (leading_of x) into)
        (stalk_count (label_rank_of x - 1) into) into unit_element images.now }
    ensures { IfOk result (λ rows. SameMatrix (matrix_of_entries rows) (upper_map_of quotient.now d)) }
{
    let module = TabledQuotient::new(quotient, table);
    let into = quotient.free();
    let rows = rows_of(alloc, f, into, &module, images, d)?;
    Ok(rows)
}
