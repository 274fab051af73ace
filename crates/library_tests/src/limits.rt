use lisp_base::limits::{Limits, LimitsError};

#[test]
fn the_first_number_out_of_range_is_told(rt: HostRuntime) {
    for (steps, look, workers, error) in [
        (100, 64, 64, None),
        (1, 1, 1, None),
        (1_000_000, 256, 64, None),
        (100, 64, 65, Some(LimitsError::WorkersOutOfRange)),
        (100, 64, 0, Some(LimitsError::WorkersOutOfRange)),
        (100, 257, 65, Some(LimitsError::LookOutOfRange)),
        (100, 0, 4, Some(LimitsError::LookOutOfRange)),
        (0, 0, 0, Some(LimitsError::StepsOutOfRange)),
        (1_000_001, 64, 4, Some(LimitsError::StepsOutOfRange)),
    ] {
        assert_eq!(rt; Limits::new(steps, look, workers).err(), error);
    }
}
