// The network of source document 002 with station A held and B free: the baseline between them is in the adjustment, so there are 3 · 14 − 15 = 27 degrees of freedom. The document
// prints no such adjustment. Unit and weights are those of baselines_002.
use super::baselines_002::RECORDS;
use super::solving::{Survey, show};
use book::Refusal;

const SURVEY: Survey<'static> = Survey {
    title: "baselines of document 002 with station A alone held; unit 0.1 mm, weights times 50\n",
    stations: "stations 1 0 0 0 2 76836809 102824537 106783057 2 116440000 36010000 33990000 2 -34840000 98880000 97700000 2 -53220000 36340000 31740000 2 11160000 45960000 43560000",
    records: RECORDS,
    corrections: "corrections 10 24 -152 2305 2200 2756 666 -667 3349 3105 822 -3313 4508 1570 -968
",
    sheet: "station 1 0 0 0 0 0 0
station 2 76836819 102824561 106782905 109718 119336 119995
station 3 116442305 36012200 33992756 205840 206178 207190
station 4 -34839334 98879333 97703349 144677 148168 160485
station 5 -53216895 36340822 31736687 140240 138905 141275
station 6 11164508 45961570 43559032 62717 63818 72166
record 1 -73 -35 -206 0 0 1
record 2 -269 -68 -35 1 1 1
record 3 -44 -106 1 1 1 0
record 4 77 24 -37 1 0 0
record 5 8 79 10 0 1 0
record 6 102 -23 -35 1 1 1
record 7 -15 -40 70 0 1 1
record 8 55 -7 30 1 0 0
record 9 39 54 40 1 1 1
record 10 56 22 -6 1 1 0
record 11 1 -65 44 0 1 1
record 12 0 -42 66 0 1 1
record 13 69 -17 109 1 0 1
record 14 64 -11 103 0 0 1
global 621028256 27 4
",
};

pub(crate) fn run() -> Result<(), Refusal> {
    show::<15, 225, 145>(SURVEY)?;
    Ok(())
}
