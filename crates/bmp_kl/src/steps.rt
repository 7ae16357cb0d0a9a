//! The products of the vertices with simple reflections, by numbers.
ghost use Rattle.std.specs.Prelude.{◌≡◌, ◌+◌, ◌*◌, ◌<◌, ◌≤◌, ℕ, Some, None, length, map, IfOk, slice_index, slice_index_or};
ghost use Rattle.bmp_roots.specs.RootSystems.{matrix_of, positive_roots_of};
ghost use Rattle.bmp_weyl.specs.Elements.{element_length};
ghost use Rattle.bmp_kl.specs.VertexProducts.{IsProductAt, partner};
ghost use Rattle.bmp_interval.specs.Intervals.{IsIntervalOf};
ghost use Rattle.bmp_interval.specs.IntervalViews.{system_of, letters_of, word_below, vertices_of};

use bmp_interval::Interval;
use std::alloc::{AllocError, Global};

/// For each vertex its length, and for each vertex and simple reflection the number of their product, where that is a
/// vertex. There are six entries for each vertex.
#[derive(Drop)]
pub struct Steps {
    pub rank: usize,
    pub lengths: Vec<u32>,
    pub products: Vec<Option<usize>>,
}

/// A simple reflection, from 0, whose product with a vertex is a smaller vertex.
#[derive(Clone, Copy)]
pub struct Descent {
    pub letter: usize,
    pub below: usize,
}

// The number of the product of vertex x with the simple reflection k, from 0.
fn product_number(interval: &Interval, x: usize, k: usize) -> Option<usize>
    requires vertex { x < length (vertices_of interval.now) }
    requires letter { k < 6 }
    ensures { IsProductAt (matrix_of (system_of interval.now)) (word_below interval.now) (vertices_of interval.now) x k
        result }
{
    let roots = interval.roots();
    if k >= roots.rank() as usize {
        return None;
    }
    let product = interval.elem(x as u32).times_simple(roots, k as u8 + 1);
    match interval.number_of(&product) {
        Some(number) => Some(number as usize),
        None => None,
    }
}

/// The lengths of the vertices.
pub fn vertex_lengths(alloc: Global, interval: &Interval) -> Result<Vec<u32>, AllocError>
    ensures interval { IsIntervalOf (system_of interval.now) (letters_of interval.now) (vertices_of interval.now) }
    ensures lengths { IfOk result (λ lengths. lengths.items
        ≡ map (element_length (positive_roots_of (system_of interval.now))) (vertices_of interval.now)) }
{
    let mut lengths = Vec::new(alloc);
    for x in 0..interval.len() {
        lengths.push(interval.length(x))?;
    }
    Ok(lengths)
}

// The table of products, six for each vertex.
fn vertex_products(alloc: Global, interval: &Interval) -> Result<Vec<Option<usize>>, AllocError>
    ensures places { IfOk result (λ products. length products.items ≡ length (vertices_of interval.now) * 6) }
    ensures products { IfOk result (λ products. (x k : ℕ) → x < length (vertices_of interval.now) → k < 6
        → IsProductAt (matrix_of (system_of interval.now)) (word_below interval.now) (vertices_of interval.now) x k
        (partner products.items k x)) }
{
    let mut products = Vec::new(alloc);
    for place in 0..interval.len() as usize * 6 {
        products.push(product_number(interval, place / 6, place % 6))?;
    }
    Ok(products)
}

impl Steps {
    ghost use Rattle.std.specs.Prelude.{IfNone, IfSome};
    ghost use Rattle.bmp_kl.specs.VertexSteps.{AreSteps};
    ghost use Rattle.bmp_kl.specs.Descents.{IsFirstDescent};

    /// The steps of an interval.
    pub fn of(alloc: Global, interval: &Interval) -> Result<Steps, AllocError>
        ensures { IfOk result
            (AreSteps (system_of interval.now) (letters_of interval.now) (vertices_of interval.now)) }
    {
        let lengths = vertex_lengths(alloc, interval)?;
        let products = vertex_products(alloc, interval)?;
        Ok(Steps {
            rank: interval.roots().rank() as usize,
            lengths,
            products,
        })
    }

    /// The number of vertices that are shorter than `level`, which come first where lengths rise with the numbers.
    pub fn shorter_than(&self, level: u32) -> usize
        ensures within { result ≤ length self.now.lengths.items }
        ensures before { (x : ℕ) → x < result → slice_index self.now.lengths.items x < level }
        ensures behind { result < length self.now.lengths.items → level ≤ slice_index self.now.lengths.items result }
    {
        for (x, length) in self.lengths.iter().enumerate() {
            if *length >= level {
                return x;
            }
        }
        self.lengths.len()
    }

    /// The least right descent of vertex y, with the shorter vertex.
    pub fn descent(&self, y: usize) -> Option<Descent>
        requires vertex { y < length self.now.lengths.items }
        requires rank { self.now.rank ≤ 6 }
        requires places { length self.now.products.items ≡ length self.now.lengths.items * 6 }
        ensures none { IfNone result ((k z : ℕ) → k < self.now.rank → partner self.now.products.items k y ≡ Some z →
            y ≤ z) }
        ensures some { IfSome result (IsFirstDescent self.now.rank (λ k. partner self.now.products.items k y) y) }
    {
        for k in 0..self.rank {
            if let Some(below) = self.products[y * 6 + k] {
                if below < y {
                    return Some(Descent { letter: k, below });
                }
            }
        }
        None
    }
}
