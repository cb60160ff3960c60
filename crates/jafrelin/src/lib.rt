// The operations as C functions, for the static library; include/jafrelin.h declares them. A slice is a pointer and a length.
#![tactic(auto)]

ghost use Rattle.std.specs.Prelude.{◌≡◌, ltb, length};
ghost use Rattle.facts.specs.Read.{accepted};
ghost use Rattle.facts.specs.Write.{length_in, written_in};
ghost use Rattle.taskfile.specs.TaskFile.{check_task, cost_task, run_task};
ghost use Rattle.relaxation.specs.RelaxedTask.{relaxed_task};
ghost use Rattle.relaxation.specs.EstimateTask.{estimate_task};
ghost use Rattle.probefile.specs.ProbeFile.{check_probe, run_probe};
ghost use Rattle.probe_estimate.specs.Estimate.{estimate_probe};
ghost use Rattle.compilation.specs.CompileFile.{compile_file, compiled_buffer};
ghost use Rattle.carry.specs.CarryFile.{expanded, contracted, answer_in, buffer_in};
ghost use Rattle.words.specs.DescribeFile.{shown, drawn, drawn_action};
ghost use Rattle.trace.specs.TraceFile.{traced};
ghost use Rattle.sentence.specs.Sentence.{subject_of, sentence};
ghost use Rattle.sheet.specs.SheetFile.{sheet_of};
ghost use Rattle.dearest.specs.Dearest.{dearest_of};
ghost use Rattle.charge.specs.Charge.{charge_of};
ghost use Rattle.packing.specs.Packing.{packed_check, packed_sum, packed_walk, packed_length, packed_list, packed_estimate, refusal_of, place_of};

// Whether a task file is accepted.
#[unsafe(no_mangle)]
pub extern "C" fn jafrelin_check_task(file: &[u8]) -> u64
    ensures { result ≡ packed_check (check_task file.now) }
{
    packing::checked(task::check(file))
}

// Whether a probe file is accepted.
#[unsafe(no_mangle)]
pub extern "C" fn jafrelin_check_probe(file: &[u8]) -> u64
    ensures { result ≡ packed_check (check_probe file.now) }
{
    packing::checked(probe::check(file))
}

// The cost of an action in a state, and how many nodes it passes.
#[unsafe(no_mangle)]
pub extern "C" fn jafrelin_cost(file: &[u8], action: u64, state: &[u8]) -> u64
    ensures { result ≡ packed_walk (cost_task file.now action state.now) }
{
    packing::tallied(task::cost(file, action as usize, state))
}

// The least cost of an action over all states in a relaxed state that meet its precondition.
#[unsafe(no_mangle)]
pub extern "C" fn jafrelin_relaxed_cost(file: &[u8], action: u64, sets: &[u8]) -> u64
    ensures { result ≡ packed_sum (relaxed_task file.now action sets.now) }
{
    packing::sum(task_relaxed::relaxed_cost(file, action as usize, sets))
}

// The sum of a list of actions, and how many nodes they pass.
#[unsafe(no_mangle)]
pub extern "C" fn jafrelin_run_task(file: &[u8], list: &[u16]) -> u64
    ensures { result ≡ packed_walk (run_task file.now list.now) }
{
    packing::tallied(task::run(file, list))
}

// The sum of a list of steps.
#[unsafe(no_mangle)]
pub extern "C" fn jafrelin_run_probe(file: &[u8], list: &[u16]) -> u64
    ensures { result ≡ packed_sum (run_probe file.now list.now) }
{
    packing::sum(probe::run(file, list))
}

// The additive estimate of a task from a state.
#[unsafe(no_mangle)]
pub extern "C" fn jafrelin_estimate_task(file: &[u8], state: &[u8]) -> u64
    ensures { result ≡ packed_estimate (estimate_task file.now state.now) }
{
    packing::estimated(task_estimate::estimate(file, state))
}

// The additive estimate of a probe file from a state.
#[unsafe(no_mangle)]
pub extern "C" fn jafrelin_estimate_probe(file: &[u8], state: &[u8]) -> u64
    ensures { result ≡ packed_estimate (estimate_probe file.now state.now) }
{
    packing::estimated(probe_estimate::estimate(file, state))
}

// The probe file of a task, written into a buffer.
#[unsafe(no_mangle)]
pub extern "C" fn jafrelin_compile(file: &[u8], out: &mut [u8]) -> u64
    ensures value { result ≡ packed_length (compile_file file.now (length out.old)) }
    ensures out_after { out.new ≡ compiled_buffer file.now out.old }
{
    packing::length(compile::compile(file, out))
}

// The probe list that comes from a list of actions, written into a buffer.
#[unsafe(no_mangle)]
pub extern "C" fn jafrelin_expand(file: &[u8], list: &[u16], out: &mut [u16]) -> u64
    ensures value { result ≡ packed_list (answer_in (length out.old) (expanded file.now list.now)) }
    ensures out_after { out.new ≡ buffer_in out.old (expanded file.now list.now) }
{
    packing::list(expand::expand(file, list, out))
}

// The list of actions that a probe list comes from, written into a buffer.
#[unsafe(no_mangle)]
pub extern "C" fn jafrelin_contract(file: &[u8], list: &[u16], out: &mut [u16]) -> u64
    ensures value { result ≡ packed_list (answer_in (length out.old) (contracted file.now list.now)) }
    ensures out_after { out.new ≡ buffer_in out.old (contracted file.now list.now) }
{
    packing::list(contract::contract(file, list, out))
}

// The sheet of a plan, written into a buffer.
#[unsafe(no_mangle)]
pub extern "C" fn jafrelin_sheet(file: &[u8], plan: &[u16], out: &mut [u8]) -> u64
    ensures value { result ≡ packed_list (answer_in (length out.old) (sheet_of file.now plan.now)) }
    ensures out_after { out.new ≡ buffer_in out.old (sheet_of file.now plan.now) }
{
    packing::list(sheet::sheet(file, plan, out))
}

// The dearest state of an action, written into a buffer, and its cost.
#[unsafe(no_mangle)]
pub extern "C" fn jafrelin_dearest(file: &[u8], action: u64, out: &mut [u8]) -> u64
    ensures value { result ≡ packed_list (answer_in (length out.old) (dearest_of file.now action)) }
    ensures out_after { out.new ≡ buffer_in out.old (dearest_of file.now action) }
{
    packing::list(task_dearest::dearest(file, action as usize, out))
}

// The charge for a sum, in cents.
#[unsafe(no_mangle)]
pub extern "C" fn jafrelin_charge(sum: u32) -> u64
    ensures { result ≡ packed_sum (accepted (charge_of sum)) }
{
    charge::charge(sum) as u64
}

// A task in words, written into a buffer.
#[unsafe(no_mangle)]
pub extern "C" fn jafrelin_show(file: &[u8], out: &mut [u8]) -> u64
    ensures value { result ≡ packed_length (length_in (length out.old) (shown file.now)) }
    ensures out_after { out.new ≡ written_in out.old (shown file.now) }
{
    packing::length(describe::show(file, out))
}

// All cost diagrams of a task for Graphviz, written into a buffer.
#[unsafe(no_mangle)]
pub extern "C" fn jafrelin_draw(file: &[u8], out: &mut [u8]) -> u64
    ensures value { result ≡ packed_length (length_in (length out.old) (drawn file.now)) }
    ensures out_after { out.new ≡ written_in out.old (drawn file.now) }
{
    packing::length(draw::draw(file, out))
}

// The cost diagram of an action, written into a buffer.
#[unsafe(no_mangle)]
pub extern "C" fn jafrelin_draw_action(file: &[u8], action: u64, out: &mut [u8]) -> u64
    ensures value { result ≡ packed_length (length_in (length out.old) (drawn_action file.now action)) }
    ensures out_after { out.new ≡ written_in out.old (drawn_action file.now action) }
{
    packing::length(draw::draw_action(file, action as usize, out))
}

// The trace of a list of steps, with the states unless `states` is 0, written into a buffer.
#[unsafe(no_mangle)]
pub extern "C" fn jafrelin_trace(file: &[u8], list: &[u16], states: u64, out: &mut [u8]) -> u64
    ensures value { result ≡ packed_length (length_in (length out.old) (traced (ltb 0 states) file.now list.now)) }
    ensures out_after { out.new ≡ written_in out.old (traced (ltb 0 states) file.now list.now) }
{
    packing::length(trace::trace(file, list, 0 < states, out))
}

// The sentence for the refusal in a result, about what `about` names, written into a buffer.
#[unsafe(no_mangle)]
pub extern "C" fn jafrelin_explain(res: u64, about: u64, out: &mut [u8]) -> u64
    ensures value { result ≡ packed_length (length_in (length out.old) (accepted (sentence (subject_of about) (refusal_of res) (place_of res)))) }
    ensures out_after { out.new ≡ written_in out.old (accepted (sentence (subject_of about) (refusal_of res) (place_of res))) }
{
    let place = (res % 4294967296) as usize;
    packing::length(sentence::explain(res / 72057594037927936, place, about, out))
}
