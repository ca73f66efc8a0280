use crate::support::answers;
use std::test::Fail;

// the first plan of four tasks on two cores; places in the file are not used
#[test]
fn plans_four_tasks(rt: HostRuntime) -> Result<(), Fail> {
    let cases: [(&[u8], &[u8]); 2] = [
        (
            b"0102\n020024006E00CF\n020056008D00B2\n02005D00C3020D\n02003E00C302FF\n",
            b"0102\n020024006E00CF\n020056008D00B2\n02005D00C3020D\n02003E00C302FF\n03020001\n03010001\n03040001\n0303003A\n",
        ),
        (
            b"0102\n020024006E00CF\n020056008D00B2\n02005D00C3020D\n02003E00C302FF\n03020056\n03010001\n03030032\n0304003E\n",
            b"0102\n020024006E00CF\n020056008D00B2\n02005D00C3020D\n02003E00C302FF\n03020001\n03010001\n03040001\n0303003A\n",
        ),
    ];
    answers(&rt, rt.alloc(), &cases)
}

// no task, one task, five tasks, and the longest region
#[test]
fn plans_other_counts(rt: HostRuntime) -> Result<(), Fail> {
    let cases: [(&[u8], &[u8]); 4] = [
        (b"0101\n", b"0101\n"),
        (
            b"0101\n02000100640064\n",
            b"0101\n02000100640064\n03010001\n",
        ),
        (
            b"0104\n020001000A000D\n020007000A0010\n020003000F0013\n0200010006000F\n02000100070009\n",
            b"0104\n020001000A000D\n020007000A0010\n020003000F0013\n0200010006000F\n02000100070009\n03050001\n03040001\n03030001\n03020001\n03010001\n",
        ),
        (
            b"0101\n0203E80BB80BB8\n024E20FFFFFFFF\n",
            b"0101\n0203E80BB80BB8\n024E20FFFFFFFF\n03010001\n03020001\n",
        ),
    ];
    answers(&rt, rt.alloc(), &cases)
}
