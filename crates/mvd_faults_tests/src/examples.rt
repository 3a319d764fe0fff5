//! What the example of replicas within a program prints.
use mvd_example::{opened, run};
use std::test::Fail;

const PRINTED: &str = "\
keys 1
ada {\"city\":\"Oslo\"}
ada {\"city\":\"Bergen\"}
keys 1
ada {\"city\":\"Oslo\",\"was\":\"Bergen\"}
found ada
";

#[test]
fn two_replicas_meet(rt: HostRuntime) -> Result<(), Fail> {
    let mut desk = opened(rt.alloc(), 1)?;
    let mut phone = opened(rt.alloc(), 2)?;
    let mut out = String::new(rt.alloc());
    run(rt.alloc(), &mut desk, &mut phone, &mut out)?;
    assert!(rt; out.as_str() == PRINTED);
    Ok(())
}
