//! The square with lifts 1 modulo 3, and stalks that are refused.
ghost use Rattle.std.specs.Prelude.{◌≡◌, ◌∷◌, [], ◌<◌, ◌≤◌, IfOk};
ghost use Rattle.bmp_math.specs.Matrices.{NumbersBelow};
ghost use Rattle.bmp_field.specs.PrimeFields.{size_of};

use bmp_field::{Field, PrimeField};
use bmp_graph::{Edge, MomentGraph};
use bmp_linear::{Entry, Rows, Scratch, Vector};
use bmp_poly::{Label, LabelFault};
use bmp_sheaf::{BoundaryRows, Sheaf, SheafFault};
use std::alloc::{AllocError, Global};
use std::marker::{Send, Sync};
use std::process::Abort;
use std::test::Fail;

/// The vector that is 1 at a place, and 0 elsewhere.
fn one_at(alloc: Global, place: u32) -> Result<Vector, AllocError> {
    let mut vector = Vector::new(alloc);
    vector.push(Entry { place, value: 1 })?;
    Ok(vector)
}

/// Such vectors, one for each of the places.
fn ones_at(alloc: Global, places: &[u32]) -> Result<Vec<Vector>, AllocError> {
    let mut vectors = Vec::new(alloc);
    for place in places {
        vectors.push(one_at(alloc, *place)?)?;
    }
    Ok(vectors)
}

fn edge(lower: u32, upper: u32, first: u8, second: u8) -> Result<Edge, LabelFault> {
    let label = Label::new(3, 2, [first, second, 0, 0, 0, 0])?;
    Ok(Edge {
        lower,
        upper,
        label,
    })
}

/// The square, without a stalk: edges from 0 to 1 and 2, and from these to 3.
fn square(rt: &impl Abort, alloc: Global) -> Result<Sheaf<PrimeField>, Fail> {
    let edges = [
        edge(0, 1, 1, 0)?,
        edge(0, 2, 0, 1)?,
        edge(1, 3, 1, 1)?,
        edge(2, 3, 1, 0)?,
    ];
    let graph = MomentGraph::new(alloc, 2, 3, &[0, 1, 1, 2], &edges)?;
    let f = PrimeField::new(3).map_err(|_| "3")?;
    assert!(rt; f.size() == u32::from(graph.prime()));
    let sheaf = Sheaf::new(alloc, &graph, f, 2)?;
    Ok(sheaf)
}

/// What a call that is allowed answers.
fn push(
    rt: &impl Abort,
    sheaf: &mut Sheaf<PrimeField>,
    degrees: &[u32],
    lifts: &[Vector],
) -> Result<(), SheafFault> {
    let prime = u32::from(sheaf.graph().prime());
    for lift in lifts {
        assert!(rt; lift.is_below(prime));
    }
    assert!(rt; sheaf.pushed() < sheaf.graph().vertices());
    assert!(rt; degrees.len() < 1000);
    sheaf.push_vertex(degrees, lifts)
}

/// The square whose stalks have one generator each, of degree 0, with lifts 1.
fn constant(rt: &impl Abort, alloc: Global) -> Result<Sheaf<PrimeField>, Fail> {
    let mut sheaf = square(rt, alloc)?;
    for lifts in [&[] as &[u32], &[0], &[0], &[0, 0]] {
        push(rt, &mut sheaf, &[0], &ones_at(alloc, lifts)?)?;
    }
    Ok(sheaf)
}

/// Whether the first numbers of the scratch are these.
fn begins(s: &Scratch, want: &[u8]) -> bool {
    for (k, number) in want.iter().enumerate() {
        if k as u64 >= s.len() || s.get(false, k as u64) != *number {
            return false;
        }
    }
    true
}

/// Whether the boundary of the element of degree `d` at a vertex that is 1 at the coordinate `own` is this, found in
/// each way.
fn has_boundary(
    rt: &impl Abort,
    alloc: Global,
    sheaf: &Sheaf<PrimeField>,
    x: u32,
    d: u32,
    own: u32,
    want: &[u8],
) -> Result<bool, Fail> {
    let vertices = sheaf.graph().vertices();
    assert!(rt; x < vertices && vertices <= x + sheaf.pushed());
    assert!(rt; d <= sheaf.degree());
    let cols = sheaf.stalk_len(x, d);
    let rows = sheaf.boundary_len(x, d);
    assert!(rt; u64::from(own) < cols && cols < 1000 && rows == want.len() as u64);
    let mut s = Scratch::new(alloc, sheaf.scratch_len(d))?;
    assert!(rt; rows <= s.len());
    sheaf.generator_boundary(x, d, own, &mut s);
    let generator = begins(&s, want);
    let u = one_at(alloc, own)?;
    assert!(rt; u.fits(cols as u32) && u.is_below(u32::from(sheaf.graph().prime())));
    sheaf.boundary(x, d, &u, &mut s);
    Ok(generator && begins(&s, want))
}

/// On the edge to 1 the first variable is 0, on that to 2 the second, and on that from 1 to 3 the first is minus the
/// second.
#[test]
fn boundaries_on_the_square(rt: HostRuntime) -> Result<(), Fail> {
    let alloc = rt.alloc();
    let sheaf = constant(&rt, alloc)?;
    assert_eq!(rt; sheaf.pushed(), 4);
    for (x, d, own, want) in [
        (0, 0, 0, &[1u8, 1] as &[u8]),
        (0, 1, 0, &[0, 1]),
        (0, 1, 1, &[1, 0]),
        (1, 1, 0, &[2]),
        (1, 1, 1, &[1]),
        (1, 2, 1, &[2]),
        (3, 1, 1, &[]),
    ] {
        let same = has_boundary(&rt, alloc, &sheaf, x, d, own, want)?;
        assert!(rt; same, "vertex {x}, degree {d}, coordinate {own}");
    }
    Ok(())
}

/// Whether the numbers in the column `j` of rows are these.
fn has_column<A: Rows<PrimeField>>(f: &PrimeField, a: &A, j: u32, want: &[u8]) -> bool
    requires { NumbersBelow (size_of f.now) (A.matrix a.now) }
{
    if j >= a.cols() || a.rows() as usize != want.len() {
        return false;
    }
    for i in 0..a.rows() {
        if f.num(a.at(f, i, j)) != u32::from(want[i as usize]) {
            return false;
        }
    }
    true
}

/// The boundary map at the vertex 0 in degree 1, as rows.
#[test]
fn rows_of_the_boundary_map(rt: HostRuntime) -> Result<(), Fail> {
    let alloc = rt.alloc();
    let sheaf = constant(&rt, alloc)?;
    assert!(rt; sheaf.pushed() == sheaf.graph().vertices() && sheaf.graph().vertices() > 0);
    assert!(rt; sheaf.degree() == 2);
    assert!(rt; sheaf.boundary_len(0, 1) < 1000 && sheaf.stalk_len(0, 1) < 1000);
    let rows = BoundaryRows::of(&sheaf, 0, 1);
    for (j, want) in [(0, [0, 1]), (1, [1, 0])] {
        assert!(rt; has_column(sheaf.field(), &rows, j, &want), "column {j}");
    }
    Ok(())
}

/// After a refusal the sheaf is as it was, and takes a right stalk.
#[test]
fn stalks_that_are_refused(rt: HostRuntime) -> Result<(), Fail> {
    let alloc = rt.alloc();
    let mut sheaf = square(&rt, alloc)?;
    for (degrees, lifts, want) in [
        (
            &[1u32, 0, 0] as &[u32],
            &[] as &[u32],
            Err(SheafFault::DegreeOrder { index: 1 }),
        ),
        (
            &[0, 3, 3],
            &[],
            Err(SheafFault::DegreeOverBound { index: 1 }),
        ),
        (&[0], &[0], Err(SheafFault::LiftShape { index: 1 })),
        (&[0, 1], &[], Ok(())),
        (&[0, 1], &[0, 3], Err(SheafFault::LiftShape { index: 1 })),
        (&[0, 1], &[0, 2], Ok(())),
    ] {
        let found = push(&rt, &mut sheaf, degrees, &ones_at(alloc, lifts)?);
        assert_eq!(rt; found, want, "degrees {degrees:?}, lifts {lifts:?}");
    }
    assert_eq!(rt; sheaf.pushed(), 2);
    Ok(())
}

/// The numbers of the two maps of an edge in degree `d`, coordinate by coordinate of the edge's module.
fn numbers_on_edge(
    rt: &impl Abort,
    alloc: Global,
    sheaf: &Sheaf<PrimeField>,
    e: u32,
    d: u32,
) -> Result<Vec<u32>, Fail> {
    assert!(rt; e < sheaf.graph().edges() && d <= sheaf.degree());
    let vertices = sheaf.graph().vertices();
    let lower = sheaf.graph().edge(e).lower;
    assert!(rt; vertices <= lower + sheaf.pushed());
    let mut numbers = Vec::new(alloc);
    for i in 0..sheaf.lower_rows(e, d).rows() {
        for j in 0..sheaf.lower_rows(e, d).cols() {
            numbers.push(sheaf.field().num(sheaf.lower_at(e, d, i, j)))?;
        }
        for j in 0..sheaf.upper_rows(e, d).cols() {
            numbers.push(sheaf.field().num(sheaf.upper_at(e, d, i, j)))?;
        }
    }
    Ok(numbers)
}

/// What goes from one thread to another, and is seen by several.
fn is_shared<T: Send + Sync>(_value: &T) {}

/// The sheaf of the first stalks, the last of which is taken over.
fn taken(
    rt: &impl Abort,
    whole: &Sheaf<PrimeField>,
    count: u32,
) -> Result<Sheaf<PrimeField>, Fail> {
    assert!(rt; whole.pushed() <= whole.graph().vertices());
    assert!(rt; 0 < count);
    assert!(rt; count <= whole.pushed());
    let mut taken = whole.first(count - 1)?;
    let last = whole.first(count)?;
    taken.adopt(&last)?;
    Ok(taken)
}

/// The same sheaf, whose stalks are shared at no cost: no vertex has length 99.
fn settled(whole: &Sheaf<PrimeField>) -> Result<Sheaf<PrimeField>, Fail> {
    let mut settled = whole.first(whole.pushed())?;
    let _ = settled.open_length(99)?;
    Ok(settled)
}

/// The sheaf of the first stalks, from which the others are taken away one by one.
fn popped(
    rt: &impl Abort,
    whole: &Sheaf<PrimeField>,
    count: u32,
) -> Result<Sheaf<PrimeField>, Fail> {
    let mut popped = whole.first(whole.pushed())?;
    for _ in count..whole.pushed() {
        assert!(rt; 0 < popped.pushed());
        popped.pop_vertex();
    }
    Ok(popped)
}

/// The edges whose lower ends are there have the maps that they had.
#[test]
fn stalks_that_are_shared(rt: HostRuntime) -> Result<(), Fail> {
    let alloc = rt.alloc();
    let sheaf = constant(&rt, alloc)?;
    is_shared(&sheaf);
    let settled = settled(&sheaf)?;
    for (count, edges) in [
        (1, &[] as &[u32]),
        (2, &[3]),
        (3, &[2, 3]),
        (4, &[0, 1, 2, 3]),
    ] {
        assert!(rt; count <= sheaf.pushed());
        assert!(rt; count <= settled.pushed());
        for shared in [
            sheaf.first(count)?,
            taken(&rt, &sheaf, count)?,
            settled.first(count)?,
            popped(&rt, &settled, count)?,
        ] {
            assert_eq!(rt; shared.pushed(), count);
            for e in edges {
                for d in 0..3 {
                    let want = numbers_on_edge(&rt, alloc, &sheaf, *e, d)?;
                    let found = numbers_on_edge(&rt, alloc, &shared, *e, d)?;
                    assert_eq!(rt; found, want, "count {count}, edge {e}, degree {d}");
                }
            }
        }
    }
    Ok(())
}
