// The sender.
ghost use Rattle.std.specs.Prelude.{length};
ghost use Rattle.frame.specs.Writing.{data_frame, closing_frame, lengths_frame};
ghost use Rattle.sender.specs.State.{closing_by};
ghost use Rattle.sender.specs.Calls.{open_call, data_call, close_call, close_with_call, renew_call};
ghost use Rattle.numbers_state.specs.States.{sender_of};
ghost use Rattle.numbers_sender.specs.Senders.{MakesFresh, TurnsState, SendsState};

// Makes a fresh sender. Answers 0, or a refusal's number.
#[unsafe(no_mangle)]
pub extern "C" fn quimdoral_sender_fresh(state: &mut [u64]) -> u8
    ensures { MakesFresh state.old result state.new }
{
    numbers_sender::fresh_state(state)
}

// Opens a sequence. Answers 0, or a refusal's number.
#[unsafe(no_mangle)]
pub extern "C" fn quimdoral_sender_open(state: &mut [u64], stamp: u32) -> u8
    ensures { TurnsState state.old (open_call (sender_of state.old) stamp) result state.new }
{
    numbers_sender::open_state(state, stamp)
}

// Begins a new period. Answers 0, or a refusal's number.
#[unsafe(no_mangle)]
pub extern "C" fn quimdoral_sender_new_period(state: &mut [u64]) -> u8
    ensures { TurnsState state.old (renew_call (sender_of state.old)) result state.new }
{
    numbers_sender::renew_state(state)
}

// Sends a data PDU.
#[unsafe(no_mangle)]
pub extern "C" fn quimdoral_sender_data(state: &mut [u64], payload: &[u8], out: &mut [u8]) -> u64
    ensures { SendsState state.old
        (data_call (sender_of state.old) (length payload.now) (length out.old))
        (data_frame (sender_of state.old).stamp (sender_of state.old).number.0 (sender_of state.old).elapsed.0 payload.now)
        out.old result state.new out.new }
{
    numbers_sender::send_data(state, payload, out)
}

// Closes the sequence with a Type 0 frame.
#[unsafe(no_mangle)]
pub extern "C" fn quimdoral_sender_close(state: &mut [u64], out: &mut [u8]) -> u64
    ensures { SendsState state.old
        (close_call (sender_of state.old) (length out.old))
        (closing_frame (closing_by (sender_of state.old)))
        out.old result state.new out.new }
{
    numbers_sender::send_closing(state, out)
}

// Closes the sequence with a Type 3 frame.
#[unsafe(no_mangle)]
pub extern "C" fn quimdoral_sender_close_with_lengths(
    state: &mut [u64],
    lengths: &[u16],
    out: &mut [u8],
) -> u64
    ensures { SendsState state.old
        (close_with_call (sender_of state.old) lengths.now (length out.old))
        (lengths_frame (closing_by (sender_of state.old)) lengths.now)
        out.old result state.new out.new }
{
    numbers_sender::send_closing_with_lengths(state, lengths, out)
}
