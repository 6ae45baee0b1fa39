// A certificate in free form, as its canonical text.
use civl_proofs::{certificate, read_certificate};
use std::alloc::Global;
use std::test::Fail;

/// The canonical text of what a certificate holds.
fn rewritten(alloc: Global, text: &str) -> Result<Vec<u8>, Fail> {
    match read_certificate(alloc, text.as_bytes()) {
        Ok((cnf, log)) => match certificate(alloc, &cnf, &log) {
            Ok(out) => Ok(out),
            Err(wanting) => Err(Fail::from(wanting)),
        },
        Err(fault) => Err(Fail::from(fault)),
    }
}

#[test]
fn free_form_is_rewritten(rt: HostRuntime) -> Result<(), Fail> {
    let text = "c x\np\tcnf\t3 2\n\n1\n-3 0\nc y\n 0\nlog\n2 0 -2 \r\n 3 0";
    let out = rewritten(rt.alloc(), text)?;
    assert_eq!(rt;
        out.as_slice(),
        b"p cnf 3 2\n1 -3 0\n0\nlog\n2 0\n-2 3 0\n".as_slice()
    );
    Ok(())
}
