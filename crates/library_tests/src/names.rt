use lisp_base::id::SymbolId;
use symbol_table::error::InternError;
use symbol_table::symbols::Symbols;

#[test]
fn the_first_symbols_and_some_more(rt: HostRuntime) -> Result<(), InternError> {
    let mut symbols = Symbols::new(rt.alloc())?;
    for (name, number) in [(":FORCE", 4), ("CAR", 5), ("car", 6), ("λ", 7), ("CAR", 5)] {
        assert_eq!(rt; symbols.intern(name)?, SymbolId(number), "{name}");
    }
    Ok(())
}
