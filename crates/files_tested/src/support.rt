use plan_file::desk::Desk;
use plan_file::planning::plan_file;
use std::alloc::Global;
use std::process::Abort;
use std::test::Fail;

// Plans each file, and compares the answer with the text that it must give, byte for byte.
pub fn answers(rt: &impl Abort, heap: Global, cases: &[(&[u8], &[u8])]) -> Result<(), Fail> {
    for (file, said) in cases {
        let mut text = [b'.'; 1024];
        let n = plan_file(file, Desk::new(heap)?, &mut text);
        assert_eq!(rt; n, said.len());
        assert!(rt; text.starts_with(said), "another answer");
        assert_eq!(rt; text.get(n).copied(), Some(b'.'));
    }
    Ok(())
}
