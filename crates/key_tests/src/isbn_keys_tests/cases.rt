//! Texts of numbers with the keys that another program gave them. `|` parts the cells of a line; where there is no key,
//! its cells are empty.

/// An ISBN text and its key.
pub(crate) const ISBNS: &[u8] = b"\
|\n\
\x20|\n\
0306406152|9780306406157\n\
\x20 0306406152|9780306406157\n\
0-306-40615-2|9780306406157\n\
0306406152 (pbk.)|9780306406157\n\
0306406152(pbk.)|9780306406157\n\
0306406152:$5|9780306406157\n\
0306406152 : $12.00|9780306406157\n\
0306406153|\n\
030640615|\n\
03064061520|\n\
9780306406157|9780306406157\n\
978-0-306-40615-7|9780306406157\n\
9780306406158|\n\
978030640615|\n\
97803064061577|\n\
9790000000001|9790000000001\n\
9790000000002|\n\
9770000000000|\n\
9770306406157|\n\
316148410X|9783161484100\n\
316148410x|9783161484100\n\
3-16-148410-X|9783161484100\n\
3161484101|\n\
316148410XX|\n\
X161484103|\n\
31614841X0|\n\
080442957X|9780804429573\n\
080442957x (v. 1)|9780804429573\n\
XXXXXXXXXX|\n\
0000000000|9780000000002\n\
000000000X|\n\
9780000000002|9780000000002\n\
-0306406152-|9780306406157\n\
----------|\n\
0306 406152|\n\
\t0306406152|\n\
0306406152\t|\n\
ISBN 0306406152|\n\
(0306406152)|\n\
:0306406152|\n\
978030640615X|\n\
97803064O6157|\n\
\xd9\xa0\xd9\xa3\xd9\xa0\xd9\xa6\xd9\xa4\xd9\xa0\xd9\xa6\xd9\xa1\xd9\xa5\xd9\xa2|\n\
\xef\xbc\x90306406152|\n\
0306406152\xc2\xa0|\n\
0\xe2\x80\x90306\xe2\x80\x9040615\xe2\x80\x902|\n\
0306406152;|\n\
0306406152,|\n\
0306406152.|\n\
9-7-8-0-3-0-6-4-0-6-1-5-7|9780306406157\n\
978 0306406157|\n\
978-0306406157 (set)|9780306406157\n\
0306406152\xff|\n\
\xff|\n\
0306406152 \xff|9780306406157\n\
9483001803|9789483001803\n\
9483001813|\n\
9302396622|9789302396622\n\
9302396632|\n\
3142782206|9783142782201\n\
3142782216|\n\
188378350X|9781883783501\n\
188378351X|\n\
7185924944|9787185924949\n\
7185924954|\n\
7484729728|9787484729726\n\
7484729738|\n\
";

/// An ISSN text and its key.
pub(crate) const ISSNS: &[u8] = b"\
|\n\
0378-5955|03785955\n\
03785955|03785955\n\
\x20 0378-5955|03785955\n\
0378-5955 (online)|03785955\n\
0378-5955(x)|03785955\n\
0378-5955:x|03785955\n\
0378-5954|\n\
037-85955|\n\
0378--5955|\n\
0378-5955-|\n\
-0378-5955|\n\
03785955X|\n\
0378595|\n\
2434-561X|2434561X\n\
2434-561x|2434561X\n\
2434561x|2434561X\n\
2434561X (print)|2434561X\n\
243X-5610|\n\
2434-56X1|\n\
0000-0000|00000000\n\
00000000|00000000\n\
XXXX-XXXX|\n\
\t0378-5955|\n\
0378 5955|\n\
ISSN 0378-5955|\n\
0378\xe2\x80\x935955|\n\
\xd9\xa0\xd9\xa3\xd9\xa7\xd9\xa8-\xd9\xa5\xd9\xa9\xd9\xa5\xd9\xa5|\n\
0378-5955.|\n\
0378-59-55|\n\
0317-8471|03178471\n\
1050-124X|1050124X\n\
1050-1240|\n\
1050124X|1050124X\n\
2049-3630|20493630\n\
20493631|\n\
03178471:|03178471\n\
(0378-5955)|\n\
0-3785955|\n\
0378-5955\xff|\n\
\xff|\n\
";

/// An LCCN text and its key.
pub(crate) const LCCNS: &[u8] = b"\
|\n\
\x20|\n\
/|\n\
//|\n\
-|000000\n\
--|00000-\n\
\x20  75-425165//r75|75425165\n\
75-425165|75425165\n\
75425165|75425165\n\
\x2075425165 |75425165\n\
85-2|85000002\n\
\x20  85000002 |85000002\n\
n78-890351|n78890351\n\
n 78890351|n78890351\n\
n78890351|n78890351\n\
no2001-12345|no2001012345\n\
2001-000002|2001000002\n\
2001000002|2001000002\n\
85-1234567|851234567\n\
85-123456|85123456\n\
85-|85000000\n\
-2|000002\n\
n-1|n000001\n\
1-2-3|10002-3\n\
85-2-|8500002-\n\
85--2|850000-2\n\
a/-1|a\n\
/85-2|\n\
85-2/AC/r86|85000002\n\
85 - 2|85000002\n\
8 5 0 0 0 0 0 2|85000002\n\
agr25000003 /L|agr25000003\n\
sh 85-026331|sh85026331\n\
85-\xc3\xbc|850000\xc3\xbc\n\
85-\xc3\xbc\xc3\xbc\xc3\xbc|85\xc3\xbc\xc3\xbc\xc3\xbc\n\
\xc3\xa9-1|\xc3\xa9000001\n\
75-425165\t|75425165\t\n\
\t75-425165|\t75425165\n\
n  78  -  890351|n78890351\n\
x-12345 6|x123456\n\
x-1234567/|x1234567\n\
-/1|000000\n\
\x20- |000000\n\
\x20/ |\n\
00-000001|00000001\n\
A-B|A00000B\n\
85-\xff|8500000\xff\n\
\xff/|\xff\n\
";

/// A source, a number, and the two parts of their key.
pub(crate) const PAIRS: &[u8] = b"\
OCoLC|ocm00012345|OCoLC|12345\n\
OCoLC|ocn123456789|OCoLC|123456789\n\
OCoLC|on1234567890|OCoLC|1234567890\n\
OCoLC|12345|OCoLC|12345\n\
OCoLC|00012345|OCoLC|12345\n\
OCoLC| ocm1 |OCoLC|1\n\
OCoLC|ocm 1|OCoLC|ocm 1\n\
OCoLC|ocm||\n\
OCoLC|ocn||\n\
OCoLC|on||\n\
OCoLC|ocm0||\n\
OCoLC|0||\n\
OCoLC|000||\n\
OCoLC|||\n\
OCoLC| ||\n\
OCoLC|ocmx1|OCoLC|ocmx1\n\
OCoLC|ocm1x|OCoLC|ocm1x\n\
OCoLC|0ocm1|OCoLC|ocm1\n\
OCoLC|onn1|OCoLC|onn1\n\
OCoLC|ocmocm1|OCoLC|ocmocm1\n\
OCoLC|OCM1|OCoLC|OCM1\n\
OCoLC|oc1|OCoLC|oc1\n\
OCoLC|ocm-1|OCoLC|ocm-1\n\
OCoLC|1 2|OCoLC|1 2\n\
OCoLC|00x1|OCoLC|x1\n\
OCoLC|ocm00||\n\
OCoLC|o1|OCoLC|o1\n\
OCoLC|ocm\xd9\xa1|OCoLC|ocm\xd9\xa1\n\
\x20OCoLC |ocm00012345|OCoLC|12345\n\
\x20OCoLC |007|OCoLC|7\n\
\x20OCoLC |||\n\
DLC|ocm00012345|DLC|ocm00012345\n\
DLC|007|DLC|007\n\
DLC|||\n\
oCoLC|ocm00012345|oCoLC|ocm00012345\n\
oCoLC|007|oCoLC|007\n\
oCoLC|||\n\
OCOLC|ocm00012345|OCOLC|ocm00012345\n\
OCOLC|007|OCOLC|007\n\
OCOLC|||\n\
|1||\n\
\x20|1||\n\
=LIBA|1||\n\
\x20=LIBA|1||\n\
=|1||\n\
A=|1|A=|1\n\
A(|1||\n\
A)|1||\n\
(|1||\n\
A B|1|A B|1\n\
SSSSSSSSSSSSSSSSSSSSSSSSSSSSSSSSSSSSSSSSSSSSSSSSSSSSSSSSSSSSSSSS|1|SSSSSSSSSSSSSSSSSSSSSSSSSSSSSSSSSSSSSSSSSSSSSSSSSSSSSSSSSSSSSSSS|1\n\
SSSSSSSSSSSSSSSSSSSSSSSSSSSSSSSSSSSSSSSSSSSSSSSSSSSSSSSSSSSSSSSSS|1||\n\
\x20SSSSSSSSSSSSSSSSSSSSSSSSSSSSSSSSSSSSSSSSSSSSSSSSSSSSSSSSSSSSSSSS |1|SSSSSSSSSSSSSSSSSSSSSSSSSSSSSSSSSSSSSSSSSSSSSSSSSSSSSSSSSSSSSSSS|1\n\
\xc3\xa9\xc3\xa9\xc3\xa9\xc3\xa9\xc3\xa9\xc3\xa9\xc3\xa9\xc3\xa9\xc3\xa9\xc3\xa9\xc3\xa9\xc3\xa9\xc3\xa9\xc3\xa9\xc3\xa9\xc3\xa9\xc3\xa9\xc3\xa9\xc3\xa9\xc3\xa9\xc3\xa9\xc3\xa9\xc3\xa9\xc3\xa9\xc3\xa9\xc3\xa9\xc3\xa9\xc3\xa9\xc3\xa9\xc3\xa9\xc3\xa9\xc3\xa9|1|\xc3\xa9\xc3\xa9\xc3\xa9\xc3\xa9\xc3\xa9\xc3\xa9\xc3\xa9\xc3\xa9\xc3\xa9\xc3\xa9\xc3\xa9\xc3\xa9\xc3\xa9\xc3\xa9\xc3\xa9\xc3\xa9\xc3\xa9\xc3\xa9\xc3\xa9\xc3\xa9\xc3\xa9\xc3\xa9\xc3\xa9\xc3\xa9\xc3\xa9\xc3\xa9\xc3\xa9\xc3\xa9\xc3\xa9\xc3\xa9\xc3\xa9\xc3\xa9|1\n\
\xc3\xa9\xc3\xa9\xc3\xa9\xc3\xa9\xc3\xa9\xc3\xa9\xc3\xa9\xc3\xa9\xc3\xa9\xc3\xa9\xc3\xa9\xc3\xa9\xc3\xa9\xc3\xa9\xc3\xa9\xc3\xa9\xc3\xa9\xc3\xa9\xc3\xa9\xc3\xa9\xc3\xa9\xc3\xa9\xc3\xa9\xc3\xa9\xc3\xa9\xc3\xa9\xc3\xa9\xc3\xa9\xc3\xa9\xc3\xa9\xc3\xa9\xc3\xa9\xc3\xa9|1||\n\
X|xxxxxxxxxxxxxxxxxxxxxxxxxxxxxxxxxxxxxxxxxxxxxxxxxxxxxxxxxxxxxxxxxxxxxxxxxxxxxxxxxxxxxxxxxxxxxxxxxxxxxxxxxxxxxxxxxxxxxxxxxxxxxxxxxxxxxxxxxxxxxxxxxxxxxxxxxxxxxxxxxxxxxxxxxxxxxxxxxxxxxxxxxxxxxxxxxxxxxxxxxxxxxxxxxxxxxxxxxxxxxxxxxxxxxxxxxxxxxxxxxxxxxxxxxxxxxxxxxxxxxxxxxxxxxxxxxxxxxxxxxxxxxxxxxxxxxxxxxxxx|X|xxxxxxxxxxxxxxxxxxxxxxxxxxxxxxxxxxxxxxxxxxxxxxxxxxxxxxxxxxxxxxxxxxxxxxxxxxxxxxxxxxxxxxxxxxxxxxxxxxxxxxxxxxxxxxxxxxxxxxxxxxxxxxxxxxxxxxxxxxxxxxxxxxxxxxxxxxxxxxxxxxxxxxxxxxxxxxxxxxxxxxxxxxxxxxxxxxxxxxxxxxxxxxxxxxxxxxxxxxxxxxxxxxxxxxxxxxxxxxxxxxxxxxxxxxxxxxxxxxxxxxxxxxxxxxxxxxxxxxxxxxxxxxxxxxxxxxxxxxxx\n\
X| (1) |X|(1)\n\
X|=1|X|=1\n\
X|\t|X|\t\n\
\t|1|\t|1\n\
UK|00|UK|00\n\
DE-599|GBV-00123|DE-599|GBV-00123\n\
\xff|1|\xff|1\n\
X|\xfe |X|\xfe\n\
";

/// A system number, and the two parts of its key.
pub(crate) const SYSTEM_NUMBERS: &[u8] = b"\
||\n\
\x20||\n\
(||\n\
)||\n\
()||\n\
()1||\n\
(X)||\n\
(X) ||\n\
(X)1|X|1\n\
\x20(X)1 |X|1\n\
( X )1|X|1\n\
(X) 1|X|1\n\
X1||\n\
X (Y)1||\n\
(X1||\n\
a(X)1||\n\
((X)1||\n\
(X))1|X|)1\n\
(X)(Y)1|X|(Y)1\n\
(X)y)1|X|y)1\n\
(OCoLC)ocm00012345|OCoLC|12345\n\
(OCoLC)ocn123456789|OCoLC|123456789\n\
(OCoLC)on1234567890|OCoLC|1234567890\n\
(OCoLC)12345|OCoLC|12345\n\
(OCoLC)00012345|OCoLC|12345\n\
(OCoLC)ocm00012345 |OCoLC|12345\n\
(OCoLC) ocm1|OCoLC|1\n\
( OCoLC )ocm1|OCoLC|1\n\
(OCoLC)||\n\
(OCoLC)ocm||\n\
(OCoLC)ocn||\n\
(OCoLC)on||\n\
(OCoLC)0||\n\
(OCoLC)ocm0||\n\
(OCoLC)ocm 1|OCoLC|ocm 1\n\
(OCoLC)ocmx|OCoLC|ocmx\n\
(OCoLC)1x|OCoLC|1x\n\
(OCoLC)ocm1 (x)|OCoLC|ocm1 (x)\n\
(oCoLC)ocm1|oCoLC|ocm1\n\
(=LIBA)1||\n\
( =LIBA)1||\n\
(DLC)   75425165|DLC|75425165\n\
(DLC)75-425165|DLC|75-425165\n\
(DE-599)GBV123|DE-599|GBV123\n\
(SSSSSSSSSSSSSSSSSSSSSSSSSSSSSSSSSSSSSSSSSSSSSSSSSSSSSSSSSSSSSSSS)1|SSSSSSSSSSSSSSSSSSSSSSSSSSSSSSSSSSSSSSSSSSSSSSSSSSSSSSSSSSSSSSSS|1\n\
(SSSSSSSSSSSSSSSSSSSSSSSSSSSSSSSSSSSSSSSSSSSSSSSSSSSSSSSSSSSSSSSSS)1||\n\
(\xc3\x85B)\xc3\xb8|\xc3\x85B|\xc3\xb8\n\
\t(X)1||\n\
(X)\t|X|\t\n\
(X)1\t|X|1\t\n\
(\t)1|\t|1\n\
(OCoLC)\xd9\xa1|OCoLC|\xd9\xa1\n\
(X)\xff|X|\xff\n\
(\xff)1|\xff|1\n\
";
