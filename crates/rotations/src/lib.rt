// The shift-and-add rotations toward a root of Kepler's equation: the arctangent table, G and the fifty steps.
#![tactic(auto)]

ghost use Rattle.std.specs.Prelude.{◌≡◌, ◌<◌, ◌≤◌, pos};
ghost use Rattle.whole.specs.Sign.{signed_by};
ghost use Rattle.whole.specs.Room.{Roomy};
ghost use Rattle.grid.specs.Grid.{one};
ghost use Rattle.rotations.specs.Table.{entries, entry};
ghost use Rattle.rotations.specs.Rotate.{shifted, shift_of, turned, plus_at, start, rotated, brought};
ghost use Rattle.rotations.specs.Room.{RoomyState};

use grid::{Angle, Eccentricity, Mean};

// E, and x and y: e times the cosine and the sine of E. All are in units.
#[derive(Clone, Copy, Debug, PartialEq, Eq)]
pub struct State {
    pub angle: i64,
    pub cosine: i64,
    pub sine: i64,
}

// R33: entry k stands at k.
const TABLE: [u64; 25] = [
    210_828_714,
    124_459_457,
    65_760_959,
    33_381_289,
    16_755_421,
    8_385_878,
    4_193_962,
    2_097_109,
    1_048_570,
    524_287,
    262_143,
    131_071,
    65_535,
    32_767,
    16_383,
    8_191,
    4_095,
    2_047,
    1_023,
    511,
    255,
    127,
    63,
    31,
    15,
];

// R34: what A is scaled by.
const G: u64 = 98_987_219;

// Two with each shift.
const ROTATIONS: u32 = 50;

#[tactic(auto, unfolding(crate::specs::Table::table, crate::specs::Table::entry))]
fn entry(k: u32) -> i64
    requires { k < entries }
    ensures { result ≡ pos (entry k) }
{
    TABLE[k as usize] as i64
}

fn shift_of(i: u32) -> u32
    ensures { result ≡ shift_of i }
{
    i / 2
}

// R36: what the cosine loses of the sine, and the sine gains of the cosine: the shift rounds down, and the sign comes after it.
#[tactic(auto, unfolding(crate::specs::Rotate::shifted))]
fn part(z: i64, k: u32, plus: bool) -> i64
    requires number { Roomy z }
    requires shift { k < entries }
    ensures { result ≡ signed_by plus (shifted k z) }
{
    whole::signed(z >> k, plus)
}

impl State {
    // R35: the state before the first rotation.
    #[tactic(auto, unfolding(crate::specs::Rotate::start, crate::specs::Table::G))]
    fn start(a: Eccentricity) -> State
        ensures at { result ≡ start a }
        ensures shape { a ≤ one }
    {
        State {
            angle: 0,
            cosine: (a.units * G / grid::ONE) as i64,
            sine: 0,
        }
    }

    // R36: the sign of the next rotation, true for plus.
    #[tactic(auto, unfolding(crate::specs::Rotate::plus_at))]
    fn sign(self, m: Mean) -> bool
        requires { RoomyState self }
        ensures { result ≡ plus_at m self }
    {
        self.angle - self.sine < m.units as i64
    }

    // One rotation by the angle of entry k, with its sign given.
    #[tactic(auto, using(crate::proofs::CodeSize::roomy_entry))]
    fn turn(self, k: u32, plus: bool) -> State
        requires state { RoomyState self }
        requires shift { k < entries }
        ensures { result ≡ turned self k plus }
    {
        let angle = self.angle + whole::signed(entry(k), plus);
        let cosine = self.cosine - part(self.sine, k, plus);
        let sine = self.sine + part(self.cosine, k, plus);
        State {
            angle,
            cosine,
            sine,
        }
    }
}

// All rotations of M and A.
#[tactic(auto, unfolding(crate::specs::Rotate::rotations, crate::specs::Rotate::rotated))]
pub fn rotate(m: Mean, a: Eccentricity) -> State
    ensures { result ≡ rotated m a }
{
    let mut s = State::start(a);
    for i in 0..ROTATIONS {
        s = s.turn(shift_of(i), s.sign(m));
    }
    s
}

// R37: E, or the nearer of 0 and T where it lies outside.
pub fn bring(angle: i64) -> Angle
    ensures { result ≡ brought angle }
{
    Angle {
        units: angle.clamp(0, grid::T as i64) as u64,
    }
}
