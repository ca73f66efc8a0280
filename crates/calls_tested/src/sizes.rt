use crate::support::{entered, refused, task};
use interference::full::Full;
use std::test::Fail;

// 2: 32 tasks and no more, whatever the task is like
#[test]
fn full_tables(rt: HostRuntime) -> Result<(), Fail> {
    let mut t = entered(rt.alloc(), 1, 32, task(1, 10, 10))?;
    assert_eq!(rt; refused(t.enter(task(1, 10, 10))), Some(2));
    assert_eq!(rt; refused(t.enter(task(0, 10, 10))), Some(2), "2 before 3");
    assert_eq!(rt; t.rows().len(), 32);
    assert_eq!(rt; refused(t.strike(32)), None);
    assert_eq!(rt; refused(t.enter(task(0, 10, 10))), Some(3));
    assert_eq!(rt; refused(t.enter(task(1, 10, 10))), None);
    assert_eq!(rt; t.rows().len(), 32);
    Ok(())
}

// 5: a list that is too short or too long
#[test]
fn orders_of_other_lengths(rt: HostRuntime) -> Result<(), Fail> {
    let mut t = entered(rt.alloc(), 2, 3, task(1, 10, 10))?.fix(Full);
    assert_eq!(rt; refused(t.order(&[])), Some(5));
    assert_eq!(rt; refused(t.order(&[1, 2])), Some(5));
    assert_eq!(rt; refused(t.order(&[1, 2, 3, 3])), Some(5));
    assert_eq!(rt; refused(t.order(&[3, 1, 2])), None);
    Ok(())
}

// 8: more than eight tasks, whether there is a plan or not
#[test]
fn nine_tasks(rt: HostRuntime) -> Result<(), Fail> {
    let mut t = entered(rt.alloc(), 16, 9, task(1, 10, 10))?.fix(Full);
    assert_eq!(rt; refused(t.seek_plan()), Some(8));
    assert_eq!(rt; refused(t.quick_plan()), Some(8));
    let mut t = entered(rt.alloc(), 1, 9, task(5, 5, 5))?.fix(Full);
    assert_eq!(rt; refused(t.seek_plan()), Some(8), "8 before 9");
    Ok(())
}

// eight tasks have a plan, or are refused by 9
#[test]
fn eight_tasks(rt: HostRuntime) -> Result<(), Fail> {
    let mut t = entered(rt.alloc(), 1, 8, task(5, 5, 5))?.fix(Full);
    assert_eq!(rt; refused(t.seek_plan()), Some(9));
    assert_eq!(rt; refused(t.quick_plan()), Some(9));
    let mut t = entered(rt.alloc(), 16, 8, task(1, 10, 10))?.fix(Full);
    t.seek_plan()?;
    let mut a = [9; 8];
    let mut b = [9; 8];
    let _ = t.read_out(&mut a, &mut b, &mut [9; 8])?;
    assert_eq!(rt; a, [8, 7, 6, 5, 4, 3, 2, 1]);
    assert_eq!(rt; b, [1; 8]);
    Ok(())
}
