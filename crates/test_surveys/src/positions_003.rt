// The constrained adjustment of source document 003 (its section 6.1.2): the baselines of Table 3, the first with its variance matrix rescaled as the text says, the levelled
// differences of Table 2, and as positions the two constraints of Table 10, marks 26 and 23, stations 6 and 3. No station is known; marks 21 and 25, stations 1 and 5, which no baseline
// joins, are height stations. The document's slope distances and angles are no records, so its sigma zero is not compared.
// E and N are in units of 1/40 mm, U in units of 1/12 mm: weight 1 is 25 mm in E and N, as mark 23 has it, and 83 mm in U, where the document has 200 mm; beside the largest weight of
// a baseline, 9,499, no room is left for less. 1.96 standard deviations of marks 22, 23, 24 and 26 are those of Table 12 to the millimetre (tests/surveys). Mark 26's position is LOOSE
// in U, where only mark 23's controls it. The first baseline fails in E; the document tests X, Y and Z, where it passes.
use super::solving::{Survey, show};
use book::Refusal;

const SURVEY: Survey<'static> = Survey {
    title: "constrained adjustment of document 003; units 1/40 mm in E and N, 1/12 mm in U\n",
    stations: "stations 3 -9655758 24300666 -109580 2 2493859 22574862 -103446 2 18735118 20289571 -104754 2 -11631712 10196904 -110578 3 16612620 5578030 -120158 2 -1331 187 1115",
    records: "B 1 6 3 18737146 20286783 -103299 2033 -61 591 1779 72 793
B 2 6 2 2496112 22571310 -102765 4803 -792 573 3545 203 7828
B 3 6 4 -11628946 10194374 -110336 6120 -1212 889 4182 783 9499
B 4 3 2 -16241112 2284571 595 2074 -198 515 1760 -4 2969
B 5 2 4 -14125057 -12376930 -7567 3440 -479 489 2699 196 5079
B 6 3 4 -30366182 -10092364 -6989 1684 -208 361 1384 39 2242
H 7 1 2 6206 120
H 8 2 3 -648 132
H 9 3 5 -15644 132
H 10 4 1 1142 132
H 11 5 4 9028 180
H 12 2 1 -6206 120
H 13 3 2 612 132
H 14 5 3 15620 132
H 15 1 4 -1142 132
H 16 4 5 -8860 180
P 17 6 0 0 0 91 6 5 75 -28 451
P 18 3 18737222 20286735 -104754 1 0 0 1 0 1
",
    corrections: "corrections 506 2247 -3550 678 2084 -2815 1399 2760 -2526 240 1067 1331 -189 -1118
",
    sheet: "station 1 -9655758 24300666 -109074 0 0 6756947
station 2 2496106 22571312 -102768 11885179 14724063 2524892
station 3 18737202 20286756 -103355 11981437 14807881 2668793
station 4 -11628952 10194378 -110338 11872381 14716701 2517082
station 5 16612620 5578030 -119091 0 0 8666230
station 6 0 -2 -3 11746645 14542996 2434149
record 1 -55 26 53 1 0 0
record 2 7 -4 0 0 0 0
record 3 7 -6 -2 0 0 0
record 4 -16 15 8 0 0 0
record 5 1 4 2 0 0 0
record 6 -28 13 -6 0 0 0
record 7 -100 0
record 8 -61 0
record 9 92 0
record 10 -121 0
record 11 275 0
record 12 100 0
record 13 25 0
record 14 -116 0
record 15 121 0
record 16 -107 0
record 17 0 2 3 0 0 2
record 18 20 -21 -1399 0 0 0
global 19645558 20 0
",
};

pub(crate) fn run() -> Result<(), Refusal> {
    show::<14, 196, 133>(SURVEY)?;
    Ok(())
}
