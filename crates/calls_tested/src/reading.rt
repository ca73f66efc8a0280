use crate::support::{entered, refused, task};
use interference::full::Full;
use planner::marks::Marks;
use std::test::Fail;

// 11: one of the three lists is too short, and then none is written
#[test]
fn short_lists(rt: HostRuntime) -> Result<(), Fail> {
    let t = entered(rt.alloc(), 2, 4, task(1, 10, 10))?.fix(Full);
    let mut three = [9; 3];
    let mut a = [9; 4];
    let mut b = [9; 4];
    assert_eq!(rt; refused(t.read_out(&mut three, &mut a, &mut b)), Some(11));
    assert_eq!(rt; refused(t.read_out(&mut a, &mut three, &mut b)), Some(11));
    assert_eq!(rt; refused(t.read_out(&mut a, &mut b, &mut three)), Some(11));
    assert_eq!(rt; three, [9; 3]);
    assert_eq!(rt; a, [9; 4]);
    assert_eq!(rt; b, [9; 4]);
    Ok(())
}

// lists that are just long enough, or longer: what stands past the last place stays
#[test]
fn tails_stay(rt: HostRuntime) -> Result<(), Fail> {
    let mut t = entered(rt.alloc(), 2, 3, task(2, 10, 10))?.fix(Full);
    t.stretch(1, 2)?;
    t.order(&[3, 1, 2])?;
    let mut a = [9; 3];
    let mut b = [9; 4];
    let mut c = [9; 5];
    assert_eq!(rt;
        t.read_out(&mut a, &mut b, &mut c)?,
        Marks {
            passed: false,
            bounded: false
        }
    );
    assert_eq!(rt; a, [3, 1, 2]);
    assert_eq!(rt; b, [1, 2, 1, 9]);
    assert_eq!(rt; c, [0, 0, 0, 9, 9]);
    Ok(())
}

// a table with no task: nothing is written, the only order is the empty one, and every search finds
#[test]
fn no_tasks(rt: HostRuntime) -> Result<(), Fail> {
    let mut t = entered(rt.alloc(), 16, 0, task(1, 10, 10))?.fix(Full);
    t.order(&[])?;
    t.seek_plan()?;
    t.seek_lengths()?;
    t.seek_bounds()?;
    let mut a = [9; 2];
    assert_eq!(rt;
        t.read_out(&mut a, &mut [], &mut [])?,
        Marks {
            passed: true,
            bounded: true
        }
    );
    assert_eq!(rt; a, [9; 2]);
    Ok(())
}
