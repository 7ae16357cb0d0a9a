//! The comparison of ranks with a table.
use bmp_cert::{Ranks, prepare_job, read_cert};
use bmp_kl::kl_table;
use bmp_report::compare_text;
use std::test::Fail;

/// Two vertices, over the field of two elements. The polynomial of each is 1.
const AGREES: &str = "bmp-cert 1\nrank 1\nrow 2\nprime 2\nword 1 1\ndegree 1\nvertices 2\n\
    vertex 1 1 0\nvertex 0 1 0\nedges 1\nlift 1 0 1\nblock 0 0 1\npivots\ntuple 1 0 1\n\
    cover 1 0 1\nsource 1 0 1\ndual 1 0 1\nblock 1 0 1\npivots\ntuple 1 0 1\ncover 0\nend\n";

/// The same with the generator of the vertex 0 in degree 1.
const DIFFERS: &str = "bmp-cert 1\nrank 1\nrow 2\nprime 2\nword 1 1\ndegree 1\nvertices 2\n\
    vertex 1 1 0\nvertex 0 1 1\nedges 1\nlift 1 0 1\nblock 0 0 1\npivots\ntuple 1 0 1\n\
    cover 1 0 1\nblock 1 0 1\npivots\ntuple 1 0 1\ncover 0\nsource 1 0 1\ndual 1 0 1\nend\n";

#[test]
fn compares_ranks(rt: HostRuntime) -> Result<(), Fail> {
    for (text, want) in [
        (AGREES, "self-dual yes\nagree 2 of 2\n"),
        (
            DIFFERS,
            "self-dual yes\ndiffer 0 0 0 1\ndiffer 0 1 1 0\nagree 1 of 2\n",
        ),
    ] {
        let c = read_cert(rt.alloc(), text.as_bytes())?;
        let ranks = Ranks::of(rt.alloc(), &c)?;
        let prepared = prepare_job(rt.alloc(), &c.job)?;
        let table = kl_table(rt.alloc(), prepared.interval(), 1_000_000)?;
        if ranks.vertices() != table.vertices() {
            return Err("as many vertices".into());
        }
        let lines = compare_text(rt.alloc(), &ranks, &table)?;
        assert_eq!(rt; lines.as_slice(), want.as_bytes());
    }
    Ok(())
}
