// The levelling of source document 003 (its Tables 1 and 2) by l − ε = x_to − x_from, the form of document 004, which prints no levelled figures. Mark 22, station 2, is held.
// Unit 0.1 mm, so a standard deviation of 10 mm, 100 units, is weight 100.
use super::solving::{Survey, show};
use book::Refusal;

const SURVEY: Survey<'static> = Survey {
    title: "levelling of document 003, in the form of document 004; unit 0.1 mm\n",
    stations: "stations 3 0 0 1037000 1 0 0 1042000 3 0 0 1041000 3 0 0 1036000 3 0 0 1028000",
    records: "H 1 1 2 5060 100
H 2 2 3 -450 110
H 3 3 5 -13200 110
H 4 4 1 1120 110
H 5 5 4 7540 150
H 6 2 1 -5060 100
H 7 3 2 420 110
H 8 5 3 13180 110
H 9 1 4 -1120 110
H 10 4 5 -7400 150
",
    corrections: "corrections -56 561 -172 366
",
    sheet: "station 1 0 0 1036944 0 0 4589188
station 2 0 0 1042000 0 0 0
station 3 0 0 1041561 0 0 5336779
station 4 0 0 1035828 0 0 8047601
station 5 0 0 1028366 0 0 8410467
record 1 4 0
record 2 -11 0
record 3 -6 0
record 4 4 0
record 5 78 0
record 6 -4 0
record 7 -19 0
record 8 -14 0
record 9 -4 0
record 10 62 0
global 503300 6 3
",
};

pub(crate) fn run() -> Result<(), Refusal> {
    show::<4, 16, 70>(SURVEY)?;
    Ok(())
}
