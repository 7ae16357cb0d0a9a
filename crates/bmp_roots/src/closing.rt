//! The list of the root pairs of a Cartan matrix, or the first pair that a limit forbids.
ghost use Rattle.std.specs.Prelude.{◌≡◌, ◌+◌, ◌<◌, ◌≤◌, ℕ, List, length, OnOk, OnErr, IfErr, IfOk};
ghost use Rattle.bmp_roots.specs.RootPairs.{HasCartanForm, HasFiniteSystem, IsSmall, mirrored, simple_pair};
ghost use Rattle.bmp_roots.specs.Closing.{IsGrown, HasResultsBefore, IsClosed, result_at, simple_pairs};
ghost use Rattle.bmp_roots.specs.Pairs.{root_pair, pair_of, pairs_of, IsRefused};

use crate::cartan_matrix::Cartan;
use crate::pair_list::PairList;
use crate::pair_tests::{contains, has_one_sign, is_small};
use crate::reflection::moved;
use crate::refusal::{FiniteKind, NotFinite};
use crate::root_pair::Pair;

// What the simple reflection k makes of the pair at place i.
fn result_of(list: &PairList, cartan: &Cartan, i: usize, k: usize) -> Pair
    requires form { HasCartanForm cartan.now }
    requires grown { IsGrown cartan.now (pairs_of list.now) }
    requires place { i < length list.now }
    requires letter { k < cartan.now.rank }
    ensures { pair_of result ≡ result_at cartan.now (pairs_of list.now) i k }
{
    let pair = list.at(i);
    moved(cartan, k, &pair)
}

fn refused(kind: FiniteKind, pair: &Pair) -> NotFinite
    ensures kind { result.kind ≡ kind }
    ensures root { result.root ≡ pair.now.root }
    ensures coroot { result.coroot ≡ pair.now.coroot }
{
    NotFinite {
        kind,
        root: pair.root,
        coroot: pair.coroot,
    }
}

// Appends what the simple reflection k makes of the pair at place i, unless the list has it.
fn grow_at(list: &mut PairList, cartan: &Cartan, i: usize, k: usize) -> Result<(), NotFinite>
    requires form { HasCartanForm cartan.now }
    requires grown { IsGrown cartan.now (pairs_of list.old) }
    requires before { HasResultsBefore cartan.now (pairs_of list.old) i k }
    requires place { i < length list.old }
    requires letter { k < cartan.now.rank }
    ensures grown { OnOk result (IsGrown cartan.now (pairs_of list.new)) }
    ensures before { OnOk result (HasResultsBefore cartan.now (pairs_of list.new) i (k + 1)) }
    ensures longer { length list.old ≤ length list.new }
    ensures refused { IfErr result (λ e. IsRefused cartan.now e.kind (root_pair e.root e.coroot)) }
{
    let pair = result_of(list, cartan, i, k);
    if contains(list.as_slice(), &pair) {
        return Ok(());
    }
    if !is_small(&pair) {
        return Err(refused(FiniteKind::Coordinate, &pair));
    }
    if !has_one_sign(&pair) {
        return Err(refused(FiniteKind::Sign, &pair));
    }
    if list.len() == 72 {
        return Err(refused(FiniteKind::Pairs, &pair));
    }
    list.push(pair);
    Ok(())
}

// Appends what each simple reflection makes of the pair at place i, where the list has it not yet.
fn grow_row(list: &mut PairList, cartan: &Cartan, i: usize) -> Result<(), NotFinite>
    requires form { HasCartanForm cartan.now }
    requires grown { IsGrown cartan.now (pairs_of list.old) }
    requires before { HasResultsBefore cartan.now (pairs_of list.old) i 0 }
    requires place { i < length list.old }
    ensures grown { OnOk result (IsGrown cartan.now (pairs_of list.new)) }
    ensures before { OnOk result (HasResultsBefore cartan.now (pairs_of list.new) (i + 1) 0) }
    ensures longer { length list.old ≤ length list.new }
    ensures refused { IfErr result (λ e. IsRefused cartan.now e.kind (root_pair e.root e.coroot)) }
{
    let rank = cartan.rank();
    for k in 0..rank {
        grow_at(list, cartan, i, k)?;
    }
    Ok(())
}

// The simple root k and its coroot.
fn simple(k: usize) -> Pair
    requires { k < 6 }
    ensures { pair_of result ≡ simple_pair k }
{
    let mut root = [0; 6];
    root[k] = 1;
    Pair { root, coroot: root }
}

// The simple pairs in order.
fn simple_list(rank: usize) -> PairList
    requires { rank ≤ 6 }
    ensures { pairs_of result ≡ simple_pairs rank }
{
    let mut list = PairList::new();
    for k in 0..rank {
        list.push(simple(k));
    }
    list
}

/// The root pairs, in the order of the closure, or the first pair that is not allowed.
pub fn close_list(cartan: &Cartan) -> Result<PairList, NotFinite>
    ensures closed { IfOk result (λ list. IsClosed cartan.now (pairs_of list)) }
    ensures finite { OnOk result (HasFiniteSystem cartan.now) }
    ensures refused { IfErr result (λ e. IsRefused cartan.now e.kind (root_pair e.root e.coroot)) }
    ensures not_finite { OnErr result (HasFiniteSystem cartan.now → ⊥) }
{
    let mut list = simple_list(cartan.rank());
    let mut i = 0;
    while i < list.len() {
        grow_row(&mut list, cartan, i)?;
        i += 1;
    }
    Ok(list)
}
