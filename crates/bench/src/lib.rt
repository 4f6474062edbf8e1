// The bench over the log and the flash: definitions and theorems about lists of events. The functions that run them stand in `bench_step` and `bench_run`.
#![tactic(auto)]
