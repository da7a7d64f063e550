// What a call's first word names.
ghost use Rattle.std.specs.Prelude.{◌≡◌};
ghost use Rattle.scripts.specs.stages.Calls.{named};

// What is called.
#[derive(Clone, Copy, Debug, PartialEq, Eq)]
pub enum Call {
    Clear,
    Level,
    Segment,
    ToPage,
    RectToPage,
    LevelGray,
    Frame,
    Figures,
    Summary,
    TwentyLines,
    CountDots,
    ReadDots,
    Columns,
    Rules,
    Graphics,
    Glyphs,
    Lines,
    Blocks,
    Sheet,
}

// Every word is taken: one that names no other call clears.
impl From<u32> for Call {
    ghost from_gives = { λ op call. call ≡ named op };

    fn from(op: u32) -> Call {
        match op {
            1 => Call::Level,
            2 => Call::Segment,
            3 => Call::ToPage,
            4 => Call::RectToPage,
            5 => Call::LevelGray,
            6 => Call::Frame,
            7 => Call::Figures,
            8 => Call::Summary,
            9 => Call::TwentyLines,
            10 => Call::CountDots,
            11 => Call::ReadDots,
            12 => Call::Columns,
            13 => Call::Rules,
            14 => Call::Graphics,
            15 => Call::Glyphs,
            16 => Call::Lines,
            17 => Call::Blocks,
            18 => Call::Sheet,
            _ => Call::Clear,
        }
    }
}
