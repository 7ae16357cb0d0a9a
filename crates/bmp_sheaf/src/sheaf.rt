//! Sheaves on a moment graph, in memory.
ghost use Rattle.std.specs.Prelude.{◌≡◌, ℕ, ◌+◌, ◌-◌, ◌*◌, ◌^◌, ◌<◌, ◌≤◌, All, List, [], ◌∷◌, ◌++◌, length, slice_index, slice_index_or, IfOk, OnOk, OnErr, IfErr};
ghost use Rattle.std.specs.Arc.{arc_value};
ghost use Rattle.bmp_math.specs.Matrices.{Matrix, NumbersBelow, SameMatrix};
ghost use Rattle.bmp_linear.specs.SparseVectors.{FitsBelow, ValuesBelow, number_at};
ghost use Rattle.bmp_linear.specs.RowTables.{EntryTable, matrix_of_entries};
ghost use Rattle.bmp_module.specs.FreeModules.{rank_of, degrees_of};
ghost use Rattle.bmp_module.specs.Columns.{matrix_of_map};
ghost use Rattle.bmp_graph.specs.Graph.{Graph, vertex_count, edge_count, lower, upper};
ghost use Rattle.bmp_sheaf.specs.Coordinates.{stalk_count, element_of, edge_module_count};
ghost use Rattle.bmp_sheaf.specs.Numbers.{lower_number, upper_number, lower_matrix, upper_matrix};
ghost use Rattle.bmp_sheaf.specs.Written.{up_count, lift_place, IsUpPlace};
ghost use Rattle.bmp_sheaf.specs.LabelTables.{IsTableOf};
ghost use Rattle.bmp_sheaf.specs.ModuleMaps.{stalk_module, edge_module, from_lower, from_upper};
ghost use Rattle.bmp_sheaf.specs.States.{Stalk, SheafState, IsState, stalk_of, IsThere, next_vertex, with_stalk, sheaf_of};
ghost use Rattle.bmp_sheaf.specs.StalkFaults.{IsStalk, BreaksFirst};
ghost use Rattle.bmp_sheaf.specs.StalkTables.{IsStalkTable, map_place};
ghost use Rattle.bmp_sheaf.specs.UpperTables.{IsEdgeModule, IsUpperOf, AreUpperTables};

use crate::fault::SheafFault;
use crate::label_tables::LabelTables;
use crate::shared_list::SharedList;
use crate::stalk::StalkPart;
use crate::upper_maps::{UpperMap, UpperMaps};
use bmp_field::Field;
use bmp_graph::MomentGraph;
use bmp_linear::{Rows, SparseRows, Vector};
use bmp_module::{Free, GradedModule, NormalTable, Quotient};
use std::alloc::{AllocError, Global};
use std::marker::Model;
use std::sync::Arc;

/// What doesn't change while stalks come.
#[derive(Drop)]
pub(crate) struct Setting<F: Field> {
    graph: MomentGraph,
    field: F,
    degree: u32,
    tables: LabelTables,
}

/// A sheaf on a moment graph, up to a degree. Its stalks come one by one, from the greatest vertex down. Sheaves share
/// what they have in common.
#[derive(Drop)]
pub struct Sheaf<F: Field> {
    pub(crate) setting: Arc<Setting<F>, Global>,
    pub(crate) uppers: UpperMaps<F>,
    pub(crate) stalks: SharedList<StalkPart<F>>,
}

impl<F: Field> Model for Sheaf<F> {
    ghost use Rattle.std.specs.Arc.{arc_value};
    ghost use Rattle.bmp_sheaf.specs.States.{SheafState};
    ghost use Rattle.bmp_sheaf.specs.StalkTables.{state_of, IsKept};

    ghost Value = { SheafState F };

    ghost view = { λ s. let c = arc_value s.setting in state_of c.graph c.field c.degree s.stalks };

    ghost invariant = { λ s. let c = arc_value s.setting in
        IsKept (F.size c.field) (state_of c.graph c.field c.degree s.stalks) c.tables s.uppers s.stalks };
}

impl<F: Field + Drop> Sheaf<F> {
    /// The sheaf on the graph of which no stalk is there yet.
    pub fn new(
        alloc: Global,
        graph: &MomentGraph,
        f: F,
        degree: u32,
    ) -> Result<Sheaf<F>, AllocError>
        requires prime { F.size f ≡ graph.now.prime }
        requires degree { degree ≤ 6 }
        ensures { IfOk result (λ s. s ≡ record { graph = graph.now; field = f; degree = degree; stalks = [] }) }
    {
        let _rank = graph.rank();
        let stalks = SharedList::with_capacity(alloc, graph.vertices() as usize)?;
        let setting = Setting {
            graph: graph.copy(alloc)?,
            tables: LabelTables::new(alloc, &f, graph, degree)?,
            field: f,
            degree,
        };
        Ok(Sheaf {
            setting: Arc::new(alloc, setting)?,
            uppers: UpperMaps::new(alloc)?,
            stalks,
        })
    }
}

impl<F: Field> Sheaf<F> {
    /// Adds the stalk at the greatest vertex whose stalk isn't there: a free module with generators of these degrees.
    /// The lifts stand by edge going up from the vertex, and then by generator.
    pub fn push_vertex(&mut self, degrees: &[u32], lifts: &[Vector]) -> Result<(), SheafFault>
        requires left { length self.old.stalks < vertex_count self.old.graph }
        requires few { length degrees.now < 2 ^ 32 }
        requires values { All (λ v. ValuesBelow v self.old.graph.prime) lifts.now }
        ensures ok { OnOk result (self.new ≡
            record self.old { stalks = self.old.stalks ++ record { degrees = degrees.now; lifts = lifts.now } ∷ [] }) }
        ensures stalk { OnOk result (IsStalk self.old (next_vertex self.old) degrees.now lifts.now) }
        ensures fault { IfErr result (BreaksFirst self.old (next_vertex self.old) degrees.now lifts.now) }
        ensures err { OnErr result (self.new ≡ self.old) }
    {
        let x = self.graph().vertices() - 1 - self.pushed();
        self.check(x, degrees, lifts)?;
        let part = self.new_part(x, degrees, lifts)?;
        let part = Arc::new(self.allocator(), part)?;
        self.add(part)?;
        Ok(())
    }

    /// Takes away the stalk that was added last.
    pub fn pop_vertex(&mut self)
        requires { 0 < length self.old.stalks }
        ensures { (t : Stalk) × (self.old ≡ with_stalk self.new t) }
    {
        let count = self.stalks.len() - 1;
        self.stalks.truncate(count);
    }

    /// How many stalks are there.
    pub fn pushed(&self) -> u32
        ensures count { result ≡ length self.now.stalks }
        ensures within { result ≤ vertex_count self.now.graph }
    {
        self.stalks.len() as u32
    }

    /// The graph: the sheaf's own copy.
    pub fn graph(&self) -> &MomentGraph
        ensures graph { result.now ≡ self.now.graph }
        ensures state { IsState self.now }
    {
        &self.setting.graph
    }

    /// The field of the numbers.
    pub fn field(&self) -> &F
        ensures field { result.now ≡ self.now.field }
        ensures size { F.size self.now.field ≡ self.now.graph.prime }
    {
        &self.setting.field
    }

    /// The degree up to which there is a sheaf.
    pub fn degree(&self) -> u32
        ensures degree { result ≡ self.now.degree }
        ensures bound { result ≤ 6 }
    {
        self.setting.degree
    }

    /// What takes memory for the sheaf.
    pub(crate) fn allocator(&self) -> Global {
        self.stalks.allocator()
    }

    /// The table of normal forms by the label of an edge.
    pub(crate) fn table(&self, e: u32) -> &NormalTable
        requires { e < edge_count self.now.graph }
        ensures { IsTableOf self.now.graph self.now.degree e result.now }
    {
        self.setting.tables.table(e)
    }

    /// The maps from upper ends that are kept so that they are found again.
    pub(crate) fn kept_uppers(&self) -> &UpperMaps<F>
        ensures { AreUpperTables self.now.degree result.now }
    {
        &self.uppers
    }

    /// An owner of what is kept of the stalk at a vertex.
    pub(crate) fn shared_part(&self, x: u32) -> &Arc<StalkPart<F>, Global>
        requires { IsThere self.now x }
        ensures table { IsStalkTable self.now x (arc_value result.now) }
        ensures state { IsState self.now }
    {
        self.stalks.at((self.graph().vertices() - 1 - x) as usize)
    }

    /// What is kept of the stalk at a vertex.
    fn part(&self, x: u32) -> &StalkPart<F>
        requires { IsThere self.now x }
        ensures table { IsStalkTable self.now x result.now }
        ensures state { IsState self.now }
    {
        self.shared_part(x)
    }

    /// What is kept of the map from the stalk at the upper end of an edge, with the edge's module.
    fn upper(&self, e: u32) -> &UpperMap<F>
        requires edge { e < edge_count self.now.graph }
        requires there { IsThere self.now (lower self.now.graph e) }
        ensures upper { IsUpperOf self.now e result.now }
        ensures state { IsState self.now }
    {
        let part = self.part(self.graph().edge(e).lower);
        &part.uppers[self.up_place(e) as usize]
    }

    /// The place of an edge among those that go up from its lower end.
    fn up_place(&self, e: u32) -> u32
        requires { e < edge_count self.now.graph }
        ensures { IsUpPlace self.now.graph (lower self.now.graph e) e result }
    {
        let graph = self.graph();
        let (first, _) = graph.up(graph.edge(e).lower);
        e - first
    }

    /// The place of an edge's map in degree `d` among the maps that are kept with its lower end.
    fn map_place(&self, e: u32, d: u32) -> usize
        requires edge { e < edge_count self.now.graph }
        requires degree { d ≤ self.now.degree }
        ensures place { result ≡ map_place self.now.graph self.now.degree e d }
        ensures within { result < up_count self.now.graph (lower self.now.graph e) * (self.now.degree + 1) }
    {
        self.up_place(e) as usize * (self.degree() as usize + 1) + d as usize
    }

    /// The stalk at a vertex.
    pub fn stalk(&self, x: u32) -> &Free
        requires { IsThere self.now x }
        ensures rank { rank_of result.now ≡ self.now.graph.rank }
        ensures degrees { degrees_of result.now ≡ (stalk_of self.now x).degrees }
        ensures stalk { IsStalk self.now x (stalk_of self.now x).degrees (stalk_of self.now x).lifts }
        ensures state { IsState self.now }
    {
        let part = self.part(x);
        &part.module
    }

    /// The module of an edge.
    pub fn edge_module(&self, e: u32) -> &Quotient
        requires edge { e < edge_count self.now.graph }
        requires there { IsThere self.now (lower self.now.graph e) }
        ensures module { IsEdgeModule self.now e result.now }
        ensures graded { ⟦<Quotient as GradedModule<F>>⟧.graded result.now ≡ edge_module self.now.graph
            (sheaf_of self.now) e }
        ensures dimension { (d : ℕ) → (⟦<Quotient as GradedModule<F>>⟧.graded result.now).dim d
            ≡ edge_module_count self.now.graph (sheaf_of self.now) d e }
    {
        &self.upper(e).quotient
    }

    /// The lift on an edge of the generator `g`, counted from 0, of its lower end.
    pub fn lift(&self, e: u32, g: u32) -> &Vector
        requires edge { e < edge_count self.now.graph }
        requires there { IsThere self.now (lower self.now.graph e) }
        requires generator { g < length (stalk_of self.now (lower self.now.graph e)).degrees }
        ensures lift { let lifts = (stalk_of self.now (lower self.now.graph e)).lifts in
            result.now ≡ slice_index_or lifts (lift_place self.now.graph (sheaf_of self.now).degrees e g) [] }
        ensures element { let s = sheaf_of self.now in let G = self.now.graph in
            s.lift e g ≡ element_of G.rank (s.degrees (upper G e)) (slice_index (s.degrees (lower G e)) g)
            (number_at result.now) }
        ensures fits { let s = sheaf_of self.now in let G = self.now.graph in
            FitsBelow result.now (stalk_count G.rank (s.degrees (upper G e)) (slice_index (s.degrees (lower G e)) g)) }
        ensures values { ValuesBelow result.now self.now.graph.prime }
    {
        let part = self.part(self.graph().edge(e).lower);
        let place = self.up_place(e) as usize * part.module.generators() as usize + g as usize;
        &part.lifts.as_slice()[place]
    }

    /// The matrix, in degree `d`, of the module map from the stalk at an edge's lower end to the edge's module: a row
    /// for each coordinate there.
    pub fn lower_rows(&self, e: u32, d: u32) -> &SparseRows<F>
        requires edge { e < edge_count self.now.graph }
        requires there { IsThere self.now (lower self.now.graph e) }
        requires degree { d ≤ self.now.degree }
        ensures matrix { SameMatrix (matrix_of_entries result.now)
            (lower_matrix self.now.graph (sheaf_of self.now) d e) }
        ensures map { let G = self.now.graph in let s = sheaf_of self.now in
            SameMatrix (matrix_of_entries result.now)
            (matrix_of_map G.prime (stalk_module G s (lower G e)) (edge_module G s e) (from_lower G s e) d) }
        ensures numbers { NumbersBelow self.now.graph.prime (matrix_of_entries result.now) }
        ensures state { IsState self.now }
    {
        let part = self.part(self.graph().edge(e).lower);
        &part.lower[self.map_place(e, d)]
    }

    /// The same from the stalk at the edge's upper end.
    pub fn upper_rows(&self, e: u32, d: u32) -> &SparseRows<F>
        requires edge { e < edge_count self.now.graph }
        requires there { IsThere self.now (lower self.now.graph e) }
        requires degree { d ≤ self.now.degree }
        ensures matrix { SameMatrix (matrix_of_entries result.now)
            (upper_matrix self.now.graph (sheaf_of self.now) d e) }
        ensures map { let G = self.now.graph in let s = sheaf_of self.now in
            SameMatrix (matrix_of_entries result.now)
            (matrix_of_map G.prime (stalk_module G s (upper G e)) (edge_module G s e) (from_upper G s e) d) }
        ensures numbers { NumbersBelow self.now.graph.prime (matrix_of_entries result.now) }
        ensures state { IsState self.now }
    {
        &self.upper(e).rows[d as usize]
    }

    /// Coordinate `i` on an edge, in degree `d`, of the image of the element of its lower end that is 1 at coordinate
    /// `j`.
    pub fn lower_at(&self, e: u32, d: u32, i: u32, j: u32) -> F::E
        requires edge { e < edge_count self.now.graph }
        requires there { IsThere self.now (lower self.now.graph e) }
        requires degree { d ≤ self.now.degree }
        requires row { i < edge_module_count self.now.graph (sheaf_of self.now) d e }
        requires column { j < (lower_matrix self.now.graph (sheaf_of self.now) d e).cols }
        ensures value { F.is_value self.now.field result }
        ensures number { F.num self.now.field result ≡ lower_number self.now.graph (sheaf_of self.now) d e i j }
    {
        self.lower_rows(e, d).at(self.field(), i, j)
    }

    /// Coordinate `i` on an edge, in degree `d`, of the element of its upper end that is 1 at coordinate `j`.
    pub fn upper_at(&self, e: u32, d: u32, i: u32, j: u32) -> F::E
        requires edge { e < edge_count self.now.graph }
        requires there { IsThere self.now (lower self.now.graph e) }
        requires degree { d ≤ self.now.degree }
        requires row { i < edge_module_count self.now.graph (sheaf_of self.now) d e }
        requires column { j < (upper_matrix self.now.graph (sheaf_of self.now) d e).cols }
        ensures value { F.is_value self.now.field result }
        ensures number { F.num self.now.field result ≡ upper_number self.now.graph (sheaf_of self.now) d e i j }
    {
        self.upper_rows(e, d).at(self.field(), i, j)
    }
}
