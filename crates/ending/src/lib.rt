// How a run ends: the record of a stop, of a spent budget, of a refusal.
#![tactic(auto)]

ghost use Rattle.std.specs.Prelude.{◌≡◌};
ghost use Rattle.manual.specs.Told.{refusal_number};
ghost use Rattle.manual.specs.State.{cause_of, register_of, cause_after, stopped_at, ended_with};

use manual::{Fault, Machine, Outcome, Refusal};

fn cause_of(fault: Fault) -> u8
    ensures { result ≡ cause_of fault }
{
    match fault {
        Fault::Raise(cause, _) => cause,
        _ => 0,
    }
}

fn register_of(fault: Fault) -> u8
    ensures { result ≡ register_of fault }
{
    match fault {
        Fault::Raise(_, register) => register,
        _ => 0,
    }
}

// The cause register after a stop: set by a capability exception alone.
fn cause_after(fault: Fault, cause: u16) -> u16
    ensures { result ≡ cause_after fault cause }
{
    match fault {
        Fault::Raise(code, register) => u16::from(code) * 256 + u16::from(register),
        _ => cause,
    }
}

// A stop: its number, cause, register and place, and the machine before the step with the cause that the stop leaves.
#[tactic(auto, unfolding(manual::specs::State::stopped_at))]
pub fn stopped(fault: Fault, steps: u32, m: Machine) -> Outcome
    ensures { result ≡ stopped_at fault steps m }
{
    Outcome {
        stop: checks::stop_number(fault),
        cause: cause_of(fault),
        register: register_of(fault),
        place: m.pcc.offset.0,
        steps,
        machine: Machine {
            cause: cause_after(fault, m.cause),
            ..m
        },
    }
}

// A stop that names no place, cause or register: 0 where every step asked for was made.
pub fn placeless(stop: u8, steps: u32, machine: Machine) -> Outcome
    ensures { result ≡ ended_with stop steps machine }
{
    Outcome {
        stop,
        cause: 0,
        register: 0,
        place: 0,
        steps,
        machine,
    }
}

// A refused start: no step was made, and the machine is as it came.
pub fn refused(refusal: Refusal, machine: Machine) -> Outcome
    ensures { result ≡ ended_with (refusal_number refusal) 0 machine }
{
    placeless(told::refusal_number(refusal), 0, machine)
}
