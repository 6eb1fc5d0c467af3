// The network of source document 002 (its Figure 17.1): control stations A and B, others C to F, 14 baselines, 12 unknowns. The last baseline joins the control stations, which are
// held: it is a check only, so there are 3 · 13 − 12 = 27 degrees of freedom, as the document prints.
// Unit 0.1 mm, coordinates from A: at 0.01 mm a baseline of 15 km is beyond the limits. All weights are 50 times what the printed covariances give, rounded, so that rounding
// moves them little; T is then 50 times as large, and the verdicts say nothing. T over 50 · 27 is 0.6129, since B is rounded to the unit; the document prints 0.6135. From F to A its
// table has -4355.9062 m in Z and its listing -4355.8962: the printed coordinates and residuals follow from the listing's, which stands here.
use super::printing::{tenfold_rows_beside, text};
use super::solving::{Survey, show};
use book::Refusal;

// The document's baselines.
pub(crate) const RECORDS: &'static str = "B 1 1 3 116442232 36012165 33992550 506 5 -5 533 5 509
B 2 1 5 -53217164 36340754 31736652 2317 25 -25 2606 27 2494
B 3 2 3 39605442 -66812467 -72790148 2170 19 -20 1964 19 2221
B 4 2 4 -111676076 -3945204 -9079593 1852 19 -20 1838 19 1873
B 5 4 3 151281647 -62867054 -63710583 3423 30 -35 3098 34 3823
B 6 4 5 -18377459 -62538534 -65966697 4062 37 -38 3916 37 3898
B 7 6 1 -11164523 -45961610 -43558962 6691 79 -76 7586 80 6567
B 8 6 3 105277852 -9949377 -9566246 1948 20 -19 2312 22 2086
B 9 6 5 -64381364 -9620694 -11822305 5297 48 -62 5021 50 5666
B 10 6 4 -46003787 52917785 54144311 5360 53 -40 5064 41 4153
B 11 6 2 65672311 56862926 63223917 7528 65 -85 6699 70 8269
B 12 2 6 -65672310 -56863033 -63223807 9073 76 -83 6693 63 7544
B 13 1 6 11164577 45961553 43559141 7556 74 -72 6168 53 5334
B 14 1 2 76836883 102824550 106783008 691 7 -7 740 7 684
";

const SURVEY: Survey<'static> = Survey {
    title: "baselines of document 002; unit 0.1 mm, weights times 50\n",
    stations: "stations 1 0 0 0 1 76836809 102824537 106783057 2 116440000 36010000 33990000 2 -34840000 98880000 97700000 2 -53220000 36340000 31740000 2 11160000 45960000 43560000",
    records: RECORDS,
    corrections: "corrections 2299 2185 2858 660 -681 3445 3100 812 -3241 4503 1558 -882
",
    sheet: "station 1 0 0 0 0 0 0
station 2 76836809 102824537 106783057 0 0 0
station 3 116442299 36012185 33992858 158506 160881 153023
station 4 -34839340 98879319 97703445 104896 109939 113212
station 5 -53216900 36340812 31736759 117523 118929 114819
station 6 11164503 45961558 43559118 30576 34087 33527
record 1 -67 -20 -308 0 0 1
record 2 -264 -58 -107 1 1 1
record 3 -48 -115 51 1 1 1
record 4 73 14 19 1 0 0
record 5 8 80 4 0 1 0
record 6 101 -27 -11 1 1 0
record 7 -20 -52 156 0 1 1
record 8 56 -5 14 1 0 0
record 9 39 51 54 1 1 1
record 10 56 23 -16 1 1 0
record 11 5 -53 -22 0 1 1
record 12 -4 -54 132 0 1 1
record 13 74 -5 23 1 0 0
record 14 74 13 -49 0 0 0
global 827409786 27 4
",
};

// What the document prints, in 0.01 mm: coordinates of C, D, E, F less those of A, then the residuals of the baselines, as observed minus adjusted (the document has adjusted minus
// observed), and for the last, from its Table 17.2, observed minus fixed. They are compared with words 17 on of the sheet: three of each row of seven.
const PRINTED: &'static str = "printed 1164422989 360121853 339928582
printed -348393400 988793194 977034449
printed -532168995 363408122 317367588
printed 111645032 459615576 435591183
printed -669 -203 -3082
printed -2645 -582 -1068
printed -478 -1153 511
printed 731 136 194
printed 81 801 37
printed 1005 -268 -109
printed -198 -524 1563
printed 563 -47 140
printed 387 514 545
printed 561 232 -156
printed 51 -534 -220
printed -41 -536 1320
printed 738 -46 227
printed 740 130 -500
";

pub(crate) fn run() -> Result<(), Refusal> {
    let sheet = show::<12, 144, 145>(SURVEY)?;
    text("printed in document 002 | this program | difference, in 0.01 mm\n");
    tenfold_rows_beside(&sheet[17..], PRINTED);
    Ok(())
}
