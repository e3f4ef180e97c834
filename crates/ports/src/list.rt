//! The ports of a code, by their places in the list of its signs.
ghost use Rattle.std.specs.Prelude.{◌≡◌, ◌+◌, ◌<◌, ◌^◌, length, map, slice_set, slice_get};
ghost use Rattle.std.specs.Option.{ForSome};
ghost use Rattle.ports.specs.Words.{AreWords};
ghost use Rattle.ports.specs.Asks.{answers_in, asked_in};

use crate::port::Port;

/// Asks the port at an index, and no other one.
pub fn ask_port(ports: &mut [Box<dyn Port>], at: usize, args: &[u64]) -> Option<u64>
    requires within { at < length ports.old }
    requires words { ForSome (slice_get (map (λ p. sign p) ports.old) at) (λ s. AreWords s.params args.now) }
    requires few { asked_in (map (λ p. asked p) ports.old) at < 2 ^ 63 }
    ensures answer { result ≡ answers_in (map (λ p. answers p) ports.old) at args.now }
    ensures signs { map (λ p. sign p) ports.new ≡ map (λ p. sign p) ports.old }
    ensures answers { map (λ p. answers p) ports.new ≡ map (λ p. answers p) ports.old }
    ensures asked { map (λ p. asked p) ports.new ≡ slice_set (map (λ p. asked p) ports.old) at (asked_in (map (λ p. asked p) ports.old) at + 1) }
{
    ask_one(&mut ports[at], args)
}

/// Asks one port.
fn ask_one(port: &mut Box<dyn Port>, args: &[u64]) -> Option<u64>
    requires words { AreWords (sign port.old).params args.now }
    requires few { asked port.old < 2 ^ 63 }
    ensures answer { result ≡ answers port.old args.now }
    ensures sign { sign port.new ≡ sign port.old }
    ensures answers { answers port.new ≡ answers port.old }
    ensures asked { asked port.new ≡ asked port.old + 1 }
{
    port.ask(args)
}
