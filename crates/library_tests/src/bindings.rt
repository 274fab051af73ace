use binding_stack::bindings::{BindingStack, Full};
use lisp_base::id::SymbolId;
use std::test::Fail;

#[test]
fn bind_at_4096_bindings_is_full(rt: HostRuntime) -> Result<(), Fail> {
    let x = SymbolId(0);
    let mut stack = BindingStack::new(rt.alloc())?;
    for word in 0..4096 {
        assert_eq!(rt; stack.bind(x, word), Ok(()));
    }
    assert_eq!(rt; stack.bind(x, 4096), Err(Full));
    assert_eq!(rt; stack.get(x), Some(4095));
    assert_eq!(rt; stack.height(), 4096);
    Ok(())
}

#[test]
fn set_writes_the_innermost_binding(rt: HostRuntime) -> Result<(), Fail> {
    let (x, y) = (SymbolId(0), SymbolId(1));
    let mut stack = BindingStack::new(rt.alloc())?;
    assert_eq!(rt; stack.bind(x, 1), Ok(()));
    assert_eq!(rt; stack.bind(y, 2), Ok(()));
    assert!(rt; stack.set(x, 5));
    stack.unbind_to(1);
    assert_eq!(rt; stack.get(x), Some(5));
    stack.unbind_to(0);
    assert_eq!(rt; stack.get(x), None);
    assert!(rt; !stack.set(x, 6));
    Ok(())
}
