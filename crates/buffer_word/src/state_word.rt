// The state word: one flag at most, the count, the order and the place.
ghost use Rattle.std.specs.Prelude.{◌≡◌, ◌^◌, ◌<◌, ◌⊎◌, ◌↔◌, IsNone, IfSome};
ghost use Rattle.buffer_word.specs.StateWord.{flag_of, state_word, IsPackable, HasSeveralFlags, HasUnusedBits};
ghost use Rattle.buffer_word.specs.declared.state_word.State.{State};

const FLAG_BITS: u32 = 4;

const FLAG_MASK: u64 = 0xF;

const COUNT_MASK: u64 = 0xFFFF;

const ORDER_AT: u32 = 20;

const ORDER_MASK: u64 = 0xF;

const PLACE_AT: u32 = 24;

const USED_BITS: u32 = 44;

/// What a header has: no buffer, or one that may be pinned, or one that is on its way.
#[derive(Clone, Copy, Debug, PartialEq, Eq)]
pub enum Mode {
    /// There is no buffer.
    Released,
    /// It is being filled.
    New,
    /// It is filled, and may be pinned.
    Live,
    /// It is being copied to another block.
    Moving,
    /// It is given up, and its block isn't given back yet.
    Evicted,
}

/// The state of one header.
#[derive(Clone, Copy, Debug, PartialEq, Eq)]
pub struct State {
    /// How many use the buffer, or try to.
    pub count: u16,
    /// What the header has.
    pub mode: Mode,
    /// The order of its block: `2 ^ order` minimum blocks. Below 16.
    pub order: u32,
    /// The first minimum block, counted over all arenas. Below 2^20.
    pub place: u32,
}

/// The word of a state.
///
/// Source: this project's own format.
pub fn pack(state: State) -> u64
    requires { IsPackable state }
    ensures { result ≡ state_word state }
{
    state.mode.flag()
        + (u64::from(state.count) << FLAG_BITS)
        + (u64::from(state.order) << ORDER_AT)
        + (u64::from(state.place) << PLACE_AT)
}

/// The state of a word.
///
/// None exactly where more than one flag or an unused bit is set.
///
/// Source: this project's own format.
pub fn unpack(word: u64) -> Option<State>
    ensures state { IfSome result (λ s. IsPackable s × (word ≡ state_word s)) }
    ensures packed { (s : State) → IsPackable s → word ≡ state_word s → result ≡ Some s }
    ensures refused { IsNone result ↔ (HasSeveralFlags word ⊎ HasUnusedBits word) }
{
    if word >> USED_BITS != 0 {
        return None;
    }
    match Mode::of_flag(word & FLAG_MASK) {
        None => None,
        Some(mode) => Some(State {
            count: (word >> FLAG_BITS & COUNT_MASK) as u16,
            mode,
            order: (word >> ORDER_AT & ORDER_MASK) as u32,
            place: (word >> PLACE_AT) as u32,
        }),
    }
}

impl Mode {
    fn flag(self) -> u64
        ensures { result ≡ flag_of self }
    {
        match self {
            Mode::Live => 0,
            Mode::New => 1,
            Mode::Moving => 2,
            Mode::Evicted => 4,
            Mode::Released => 8,
        }
    }

    fn of_flag(flag: u64) -> Option<Mode>
        requires { flag < 2 ^ 4 }
        ensures mode { IfSome result (λ m. flag ≡ flag_of m) }
        ensures refused { IsNone result ↔ HasSeveralFlags flag }
    {
        match flag {
            0 => Some(Mode::Live),
            1 => Some(Mode::New),
            2 => Some(Mode::Moving),
            4 => Some(Mode::Evicted),
            8 => Some(Mode::Released),
            _ => None,
        }
    }
}
