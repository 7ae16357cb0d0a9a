//! The tables of normal forms for the labels of a graph, one for each different label.
ghost use Rattle.std.specs.Prelude.{◌≡◌, ◌↔◌, ℕ, ◌<◌, ◌≤◌, ◌+◌, IfOk, IsTrue, length, slice_index, slice_index_or};
ghost use Rattle.bmp_graph.specs.Graph.{edge_count};
ghost use Rattle.bmp_module.specs.declared.normal_table.NormalTable.{NormalTable};
ghost use Rattle.bmp_sheaf.specs.LabelTables.{IsBy, HasTables, AreByDifferentLabels};

use bmp_field::Field;
use bmp_graph::MomentGraph;
use bmp_module::NormalTable;
use bmp_poly::Label;
use std::alloc::{AllocError, Global};

/// Whether the labels are equal.
pub(crate) fn same_label(a: &Label, b: &Label) -> bool
    ensures { IsTrue result ↔ (a.now ≡ b.now) }
{
    *a == *b
}

/// Whether the table is by the label.
fn is_by(table: &NormalTable, label: &Label) -> bool
    ensures { IsTrue result ↔ IsBy table.now label.now }
{
    same_label(table.label(), label)
}

/// The number of the first table by an equal label, or how many tables there are.
fn find(tables: &[NormalTable], label: &Label) -> usize
    ensures within { result ≤ length tables.now }
    ensures found { (t : NormalTable) → result < length tables.now →
        IsBy (slice_index_or tables.now result t) label.now }
    ensures first { (k : ℕ) (t : NormalTable) → k < result → ¬ IsBy (slice_index_or tables.now k t) label.now }
{
    for (number, table) in tables.iter().enumerate() {
        if is_by(table, label) {
            return number;
        }
    }
    tables.len()
}

/// A table for each different label of a graph, and for each edge the number of its table.
#[derive(Debug, Drop)]
pub struct LabelTables {
    tables: Vec<NormalTable>,
    numbers: Vec<usize>,
}

impl LabelTables {
    /// The tables for the labels of the graph, for the degrees from 0 to `degree`.
    pub fn new<F: Field>(
        alloc: Global,
        f: &F,
        graph: &MomentGraph,
        degree: u32,
    ) -> Result<LabelTables, AllocError>
        requires prime { F.size f.now ≡ graph.now.prime }
        requires degree { degree ≤ 6 }
        ensures tables { IfOk result (λ t.
            HasTables graph.now degree (edge_count graph.now) t.tables.items t.numbers.items) }
        ensures different { IfOk result (λ t. AreByDifferentLabels t.tables.items) }
    {
        let mut tables = Vec::new(alloc);
        let mut numbers = Vec::with_capacity(alloc, graph.edges() as usize)?;
        for e in 0..graph.edges() {
            let label = &graph.edge(e).label;
            let number = find(&tables, label);
            if number == tables.len() {
                tables.push(NormalTable::new(alloc, f, label, degree)?)?;
            }
            numbers.push(number)?;
        }
        Ok(LabelTables { tables, numbers })
    }

    /// The table of an edge.
    pub fn table(&self, e: u32) -> &NormalTable
        requires edge { e < length self.now.numbers.items }
        requires number { slice_index self.now.numbers.items e < length self.now.tables.items }
        ensures { result.now ≡ slice_index_or self.now.tables.items (slice_index self.now.numbers.items e) result.now }
    {
        &self.tables[self.numbers[e as usize]]
    }
}
