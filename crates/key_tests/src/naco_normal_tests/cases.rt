//! Texts, headings and titles with the values that another program gave them, at an older version of Unicode whose
//! characters all have the same properties today. `¦` parts the cells of a case, and `‡` ends it.

/// How commas are kept, a text, and its form.
pub(crate) const FORMS: &str = "\
None¦¦‡\
None¦ ¦‡\
None¦...¦‡\
None¦'¦‡\
None¦[]¦‡\
None¦['']¦‡\
None¦\u{300}¦‡\
None¦\u{301}\u{302}¦‡\
None¦\u{2bb}¦‡\
None¦\u{2014}¦‡\
None¦\u{ad}¦‡\
None¦\u{200b}¦‡\
None¦,¦‡\
First¦,¦‡\
None¦,,¦‡\
First¦,,¦‡\
None¦/:;¦‡\
None¦\u{3001}\u{3002}¦‡\
None¦\u{a0}¦‡\
None¦\u{9}\u{d}\u{a}¦‡\
None¦\u{0}\u{1b}\u{7f}¦‡\
None¦\u{20dd}¦‡\
None¦\u{3099}¦‡\
None¦(¦‡\
None¦\u{2019}¦‡\
None¦\u{201c}\u{201d}¦‡\
None¦!?¦‡\
None¦\u{ab}\u{bb}¦‡\
None¦$¦‡\
None¦\u{20ac}¦‡\
None¦Cat¦cat‡\
None¦CAT¦cat‡\
None¦cat¦cat‡\
None¦The Letters¦the letters‡\
None¦  two   blanks  ¦two blanks‡\
None¦a b c¦a b c‡\
None¦R&D¦r&d‡\
None¦C++¦c++‡\
None¦@home¦@home‡\
None¦#1¦#1‡\
None¦C# and F#¦c# and f#‡\
None¦A-B¦a b‡\
None¦A.B.C.¦a b c‡\
None¦x/y¦x y‡\
None¦a_b¦a b‡\
None¦50%¦50‡\
None¦a=b¦a b‡\
None¦a<b>c¦a b c‡\
None¦a|b¦a b‡\
None¦a\\b¦a b‡\
None¦a^b¦a b‡\
None¦a`b¦a b‡\
None¦a~b¦a b‡\
None¦{x}¦x‡\
None¦O'Brien¦obrien‡\
None¦rock 'n' roll¦rock n roll‡\
None¦d'Arc¦darc‡\
None¦can't¦cant‡\
None¦[sic]¦sic‡\
None¦[1990?]¦1990‡\
None¦a[b]c¦abc‡\
None¦(1st ed.)¦1st ed‡\
None¦\"quoted\"¦quoted‡\
None¦tab\u{9}bed¦tab bed‡\
None¦line\u{a}feed¦line feed‡\
None¦a\u{d}\u{a}b¦a b‡\
None¦a\u{0}b¦a b‡\
None¦a\u{1b}b¦a b‡\
None¦a\u{7f}b¦a b‡\
None¦1,000¦1 000‡\
First¦1,000¦1,000‡\
None¦3.14¦3 14‡\
None¦1-2¦1 2‡\
None¦Dvořák¦dvorak‡\
None¦Ångström¦angstrom‡\
None¦naïve façade¦naive facade‡\
None¦M\u{fc}ller¦muller‡\
None¦Înes¦ines‡\
None¦Ñandú¦nandu‡\
None¦São¦sao‡\
None¦Čapek¦capek‡\
None¦Žižek¦zizek‡\
None¦Őzű¦ozu‡\
None¦ĂȘȚ¦ast‡\
None¦Ǎ\u{1ce}¦aa‡\
None¦Ḁḁ¦aa‡\
None¦ẛ¦s‡\
None¦ẘẙ¦wy‡\
None¦Ǖ¦u‡\
None¦Ȧ¦a‡\
None¦Dvor\u{30c}a\u{301}k¦dvorak‡\
None¦A\u{30a}ngstro\u{308}m¦angstrom‡\
None¦e\u{301}¦e‡\
None¦e\u{301}\u{302}¦e‡\
None¦n\u{303}¦n‡\
None¦c\u{327}¦c‡\
None¦o\u{308}\u{304}¦o‡\
None¦a\u{328}¦a‡\
None¦E\u{300}¦e‡\
None¦u\u{30b}¦u‡\
None¦x\u{307}\u{323}¦x‡\
None¦y\u{302}\u{302}\u{302}¦y‡\
None¦a\u{35c}e¦ae‡\
None¦a\u{361}e¦ae‡\
None¦a\u{fe20}e\u{fe21}¦ae‡\
None¦\u{152}uvres¦oeuvres‡\
None¦œuvre¦oeuvre‡\
None¦d'\u{c6}sop¦daesop‡\
None¦ærø¦aero‡\
None¦ǽ¦ae‡\
None¦ǣ¦ae‡\
None¦Ǿ¦o‡\
None¦smørrebrød¦smorrebrod‡\
None¦Đor\u{111}e¦dorde‡\
None¦\u{d0}ð¦dd‡\
None¦\u{de}ór¦thor‡\
None¦þ\u{de}¦thth‡\
None¦\u{141}ódź¦lodz‡\
None¦\u{142}¦l‡\
None¦\u{131}l\u{131}k¦ilik‡\
None¦İstanbul¦istanbul‡\
None¦I\u{307}¦i‡\
None¦i\u{307}¦i‡\
None¦İI\u{131}i¦iiii‡\
None¦Stra\u{df}e¦strasse‡\
None¦GROẞ¦gross‡\
None¦ﬀﬁﬂﬃﬄ¦fffiflffiffl‡\
None¦ﬅﬆ¦stst‡\
None¦\u{132}\u{133}¦ijij‡\
None¦\u{149}¦n‡\
None¦ſoft¦soft‡\
None¦Ǆ\u{1c5}ǆ¦dzdzdz‡\
None¦Ǉ\u{1c8}ǉ¦ljljlj‡\
None¦Ǳ\u{1f2}ǳ¦dzdzdz‡\
None¦\u{140}l¦l l‡\
None¦\u{127}\u{126}¦\u{127}\u{127}‡\
None¦\u{14b}\u{14a}¦\u{14b}\u{14b}‡\
None¦\u{167}¦\u{167}‡\
None¦ƀ¦ƀ‡\
None¦əƏ¦əə‡\
None¦ǰ¦j‡\
None¦\u{138}¦\u{138}‡\
None¦œæø\u{111}ðþ\u{142}\u{131}¦oeaeoddthli‡\
None¦Ἀ\u{3b8}ῆ\u{3bd}\u{3b1}\u{3b9}¦\u{3b1}\u{3b8}\u{3b7}\u{3bd}\u{3b1}\u{3b9}‡\
None¦\u{3a3}ί\u{3c3}\u{3c5}\u{3c6}\u{3bf}ς¦\u{3c3}\u{3b9}\u{3c3}\u{3c5}\u{3c6}\u{3bf}\u{3c3}‡\
None¦\u{3a3}\u{3a3}\u{3a3}¦\u{3c3}\u{3c3}\u{3c3}‡\
None¦ς¦\u{3c3}‡\
None¦\u{3c3}ς\u{3a3}¦\u{3c3}\u{3c3}\u{3c3}‡\
None¦ᾳ¦\u{3b1}\u{3b9}‡\
None¦\u{1fbc}¦\u{3b1}\u{3b9}‡\
None¦ᾀ¦\u{3b1}\u{3b9}‡\
None¦\u{1f88}¦\u{3b1}\u{3b9}‡\
None¦ᾴ¦\u{3b1}\u{3b9}‡\
None¦ᾷ¦\u{3b1}\u{3b9}‡\
None¦\u{345}¦\u{3b9}‡\
None¦x\u{345}¦x\u{3b9}‡\
None¦\u{3b1}\u{345}\u{301}¦\u{3b1}\u{3b9}‡\
None¦\u{3b1}\u{301}\u{345}¦\u{3b1}\u{3b9}‡\
None¦ΐ¦\u{3b9}‡\
None¦ΰ¦\u{3c5}‡\
None¦ΐ¦\u{3b9}‡\
None¦ϐϑϕϖ¦\u{3b2}\u{3b8}\u{3c6}\u{3c0}‡\
None¦ϴ¦\u{3b8}‡\
None¦ϒ¦\u{3c5}‡\
None¦\u{391}\u{301}¦\u{3b1}‡\
None¦\u{37a}¦\u{3b9}‡\
None¦\u{1fbd}¦‡\
None¦ι¦\u{3b9}‡\
None¦ῳ\u{1ffc}¦\u{3c9}\u{3b9}\u{3c9}\u{3b9}‡\
None¦ϲϹ¦\u{3c3}\u{3c3}‡\
None¦\u{2126}¦\u{3c9}‡\
None¦µm¦\u{3bc}m‡\
None¦\u{3bc}¦\u{3bc}‡\
None¦\u{419}\u{43e}\u{434}¦\u{438}\u{43e}\u{434}‡\
None¦\u{401}\u{43b}\u{43a}\u{430}¦\u{435}\u{43b}\u{43a}\u{430}‡\
None¦\u{415}\u{308}\u{43b}\u{43a}\u{430}¦\u{435}\u{43b}\u{43a}\u{430}‡\
None¦\u{412}\u{43e}\u{439}\u{43d}\u{430} \u{438} \u{43c}\u{438}\u{440}¦\u{432}\u{43e}\u{438}\u{43d}\u{430} \u{438} \u{43c}\u{438}\u{440}‡\
None¦ЄЇҐ¦єіґ‡\
None¦єїґ¦єіґ‡\
None¦ў¦\u{443}‡\
None¦ЋЂ¦ћђ‡\
None¦Ѣѣ¦ѣѣ‡\
None¦Ѳ¦ѳ‡\
None¦ә¦ә‡\
None¦\u{483}\u{430}¦\u{430}‡\
None¦\u{488}\u{430}¦\u{430}‡\
None¦\u{430}\u{301}¦\u{430}‡\
None¦ѹ¦ѹ‡\
None¦ᲀᲁ¦\u{432}\u{434}‡\
None¦\u{42a}\u{44a}¦\u{44a}\u{44a}‡\
None¦\u{42c}\u{2019}\u{44c}¦\u{44c} \u{44c}‡\
None¦\u{5d1}\u{5e8}\u{5d0}\u{5e9}\u{5d9}\u{5ea}¦\u{5d1}\u{5e8}\u{5d0}\u{5e9}\u{5d9}\u{5ea}‡\
None¦\u{5d1}\u{5b0}\u{5bc}\u{5e8}\u{5b5}\u{5d0}\u{5e9}\u{5b4}\u{5c1}\u{5d9}\u{5ea}¦\u{5d1}\u{5e8}\u{5d0}\u{5e9}\u{5d9}\u{5ea}‡\
None¦\u{fb2a}\u{fb2b}¦\u{5e9}\u{5e9}‡\
None¦\u{fb4f}¦\u{5d0}\u{5dc}‡\
None¦\u{5d0}\u{5f3}¦\u{5d0}‡\
None¦\u{5e6}\u{5d4}\u{5f4}\u{5dc}¦\u{5e6}\u{5d4} \u{5dc}‡\
None¦\u{5d0}-\u{5d1}¦\u{5d0} \u{5d1}‡\
None¦\u{5d0}\u{5be}\u{5d1}¦\u{5d0} \u{5d1}‡\
None¦\u{fb1d}¦\u{5d9}‡\
None¦\u{5dd}\u{5de}¦\u{5dd}\u{5de}‡\
None¦\u{5f0}\u{5f1}\u{5f2}¦\u{5f0}\u{5f1}\u{5f2}‡\
None¦\u{627}\u{644}\u{642}\u{64f}\u{631}\u{622}\u{646}¦\u{627}\u{644}\u{642}\u{631}\u{627}\u{646}‡\
None¦\u{623}\u{625}\u{622}¦\u{627}\u{627}\u{627}‡\
None¦\u{627}\u{653}¦\u{627}‡\
None¦\u{fefb}¦\u{644}\u{627}‡\
None¦\u{fdfa}¦\u{635}\u{644}\u{649} \u{627}\u{644}\u{644}\u{647} \u{639}\u{644}\u{64a}\u{647} \u{648}\u{633}\u{644}\u{645}‡\
None¦\u{fe8d}¦\u{627}‡\
None¦\u{640}\u{640}¦‡\
None¦\u{627}\u{640}\u{628}¦\u{627}\u{628}‡\
None¦\u{663}\u{664}¦\u{663}\u{664}‡\
None¦۳۴¦۳۴‡\
None¦\u{60c}¦‡\
None¦\u{627}\u{60c}\u{628}¦\u{627} \u{628}‡\
None¦\u{649}\u{6cc}\u{64a}¦\u{649}\u{6cc}\u{64a}‡\
None¦\u{670}¦‡\
None¦\u{67e}\u{686}\u{6af}¦\u{67e}\u{686}\u{6af}‡\
None¦\u{6c0}¦\u{6d5}‡\
None¦東京¦東京‡\
None¦ガイド¦カイト‡\
None¦か\u{3099}¦か‡\
None¦ｶ\u{ff9e}ｲﾄ\u{ff9e}¦カイト‡\
None¦コ\u{30fc}ヒ\u{30fc}¦コヒ‡\
None¦\u{ff70}¦‡\
None¦人\u{3005}¦人‡\
None¦\u{3031}¦‡\
None¦한국어¦한국어‡\
None¦한¦한‡\
None¦ㄱ¦ᄀ‡\
None¦ＡＢＣ¦abc‡\
None¦１２¦12‡\
None¦ＷＩＤＥ\u{ff0c}¦wide‡\
First¦ＷＩＤＥ\u{ff0c}¦wide‡\
None¦\u{3000}a\u{3000}b¦a b‡\
None¦\u{300c}本\u{300d}¦本‡\
None¦豈¦豈‡\
None¦\u{2f00}¦一‡\
None¦\u{3231}¦株‡\
None¦\u{3300}¦アハト‡\
None¦\u{33c2}¦a m‡\
None¦一\u{3001}二¦一 二‡\
None¦\u{300e}\u{300f}¦‡\
None¦\u{30fb}ア\u{30fb}¦ア‡\
None¦\u{ff5e}¦‡\
None¦\u{ff06}\u{ff0b}\u{ff20}\u{ff03}¦&+@#‡\
None¦\u{ff3b}\u{ff3d}¦‡\
None¦\u{ff07}¦‡\
None¦ㇰ¦ㇰ‡\
None¦\u{309d}\u{30fd}¦‡\
None¦𠀀¦𠀀‡\
None¦Nguyễn¦nguyen‡\
None¦Nguye\u{302}\u{303}n¦nguyen‡\
None¦Việt Nam¦viet nam‡\
None¦Đỗ¦do‡\
None¦ơưƠƯ¦ouou‡\
None¦ừứ¦uu‡\
None¦ăâ\u{111}\u{ea}ôơư¦aadeoou‡\
None¦ẤẦẨ¦aaa‡\
None¦\u{2bb}okina¦okina‡\
None¦Hawai\u{2bb}i¦hawaii‡\
None¦\u{2bc}n¦n‡\
None¦\u{2b0}\u{2b2}¦hj‡\
None¦\u{2b9}\u{2ba}¦‡\
None¦\u{2c6}\u{2c7}¦‡\
None¦\u{2d0}¦‡\
None¦\u{2d8}\u{2d9}\u{2da}¦‡\
None¦\u{a8}¦‡\
None¦\u{af}¦‡\
None¦\u{b4}¦‡\
None¦\u{b8}¦‡\
None¦\u{1d2c}¦a‡\
None¦\u{1d43}¦a‡\
None¦\u{2071}\u{207f}¦in‡\
None¦\u{2090}\u{2091}¦ae‡\
None¦\u{207a}\u{207b}¦+‡\
None¦\u{374}¦‡\
None¦\u{2ee}¦‡\
None¦\u{559}¦‡\
None¦\u{301}a¦a‡\
None¦\u{300}\u{301}Cat¦cat‡\
None¦\u{20dd}x¦x‡\
None¦\u{903}a¦\u{903}a‡\
None¦\u{345}a¦\u{3b9}a‡\
None¦\u{3099}か¦か‡\
None¦\u{5b0}\u{5d1}¦\u{5d1}‡\
None¦\u{64f}\u{631}¦\u{631}‡\
None¦\u{488}x¦x‡\
None¦ \u{301} a¦a‡\
None¦x\u{b2}¦x2‡\
None¦x\u{b9}\u{b3}¦x13‡\
None¦⁰\u{2074}¦04‡\
None¦H\u{2082}O¦h2o‡\
None¦\u{bd}¦1 2‡\
None¦1\u{bd}¦11 2‡\
None¦\u{2153}¦1 3‡\
None¦\u{2160}\u{2161}\u{2162}¦iiiiii‡\
None¦\u{2167}¦viii‡\
None¦\u{2170}ⅿ¦im‡\
None¦ↀ¦ↀ‡\
None¦Ↄↄ¦ↄↄ‡\
None¦\u{2460}\u{2474}\u{2488}¦1 1 1‡\
None¦\u{24b6}\u{24d0}¦aa‡\
None¦\u{2116}5¦no5‡\
None¦〇¦〇‡\
None¦०१¦०१‡\
None¦๑¦๑‡\
None¦\u{2189}¦0 3‡\
None¦⅟¦1‡\
None¦\u{2044}¦‡\
None¦፩¦፩‡\
None¦K¦k‡\
None¦\u{212b}¦a‡\
None¦\u{2122}¦tm‡\
None¦\u{2120}¦sm‡\
None¦\u{2103}¦c‡\
None¦ℌℜ¦hr‡\
None¦𝔘𝔫¦un‡\
None¦𝟘¦0‡\
None¦\u{aa}\u{ba}¦ao‡\
None¦\u{2026}¦‡\
None¦\u{2025}¦‡\
None¦\u{203c}¦‡\
None¦\u{2100}¦a c‡\
None¦\u{33a5}¦m3‡\
None¦ẚ¦a‡\
None¦\u{fdf2}¦\u{627}\u{644}\u{644}\u{647}‡\
None¦ℵ¦\u{5d0}‡\
None¦\u{a9}¦‡\
None¦\u{ae}¦‡\
None¦\u{2105}¦c o‡\
None¦C\u{266f}¦c\u{266f}‡\
None¦B\u{266d}¦b\u{266d}‡\
None¦B\u{266e}¦b‡\
None¦\u{266d}\u{266f}¦\u{266d}\u{266f}‡\
None¦\u{1f600}¦‡\
None¦\u{2014}dash\u{2013}¦dash‡\
None¦\u{b7}¦‡\
None¦a\u{b7}b¦a b‡\
None¦\u{2022}¦‡\
None¦\u{b0}¦‡\
None¦\u{a3}\u{a5}¦‡\
None¦\u{d7}\u{f7}¦‡\
None¦\u{2212}¦‡\
None¦\u{221e}¦‡\
None¦\u{2190}¦‡\
None¦\u{25a0}¦‡\
None¦\u{b6}\u{a7}¦‡\
None¦\u{2019}s¦s‡\
None¦l\u{2019}eau¦l eau‡\
None¦\u{2018}a\u{2019}¦a‡\
None¦\u{2039}a\u{203a}¦a‡\
None¦\u{201e}a\u{201c}¦a‡\
None¦\u{2032}¦‡\
None¦soft\u{ad}hyphen¦soft hyphen‡\
None¦zero\u{200b}width¦zero width‡\
None¦a\u{200d}b¦a b‡\
None¦a\u{2060}b¦a b‡\
None¦\u{feff}a¦a‡\
None¦no\u{a0}break¦no break‡\
None¦thin\u{2009}space¦thin space‡\
None¦a\u{2028}b¦a b‡\
None¦a\u{85}b¦a b‡\
None¦ह\u{93f}न\u{94d}द\u{940}¦ह\u{93f}नद\u{940}‡\
None¦क\u{93c}¦क‡\
None¦क़¦क‡\
None¦ব\u{9be}\u{982}ল\u{9be}¦ব\u{9be}\u{982}ল\u{9be}‡\
None¦\u{9be}¦\u{9be}‡\
None¦தம\u{bbf}ழ\u{bcd}¦தம\u{bbf}ழ‡\
None¦\u{bca}¦\u{bc6}\u{bbe}‡\
None¦ໃ\u{eb1}¦ໃ‡\
None¦ไทย¦ไทย‡\
None¦ำ¦า‡\
None¦ຳ¦າ‡\
None¦ༀ¦ༀ‡\
None¦\u{f77}¦‡\
None¦မ\u{103c}န\u{103a}မ\u{102c}¦မ\u{103c}နမ\u{102c}‡\
None¦აბ¦აბ‡\
None¦Ⴀ¦ⴀ‡\
None¦Աև¦աեւ‡\
None¦և¦եւ‡\
None¦Ꭰꭰ¦ᎠᎠ‡\
None¦ﬓ¦մն‡\
None¦ሀ¦ሀ‡\
None¦ᠠ¦ᠠ‡\
None¦\u{d4b}¦\u{d47}\u{d3e}‡\
None¦\u{cca}¦\u{cc2}‡\
First¦a,b¦a,b‡\
None¦a,b¦a b‡\
First¦a,b,c¦a,b c‡\
None¦a,b,c¦a b c‡\
First¦,a¦,a‡\
None¦,a¦a‡\
First¦,,a¦, a‡\
None¦,,a¦a‡\
First¦a,¦a‡\
None¦a,¦a‡\
First¦a,,¦a‡\
None¦a,,¦a‡\
First¦a,,b¦a, b‡\
None¦a,,b¦a b‡\
First¦a , b¦a , b‡\
None¦a , b¦a b‡\
First¦a ,b¦a ,b‡\
None¦a ,b¦a b‡\
First¦a, b¦a, b‡\
None¦a, b¦a b‡\
First¦, a¦, a‡\
None¦, a¦a‡\
First¦ , a¦, a‡\
None¦ , a¦a‡\
First¦Hill, Ann¦hill, ann‡\
None¦Hill, Ann¦hill ann‡\
First¦Hill, Ann,¦hill, ann‡\
None¦Hill, Ann,¦hill ann‡\
First¦Hill, Ann, 1900-¦hill, ann 1900‡\
None¦Hill, Ann, 1900-¦hill ann 1900‡\
First¦Dvořák, Antonín,¦dvorak, antonin‡\
None¦Dvořák, Antonín,¦dvorak antonin‡\
First¦a,'¦a‡\
None¦a,'¦a‡\
First¦a,'b'¦a,b‡\
None¦a,'b'¦a b‡\
First¦'a',b¦a,b‡\
None¦'a',b¦a b‡\
First¦a,[¦a‡\
None¦a,[¦a‡\
First¦a,[b]¦a,b‡\
None¦a,[b]¦a b‡\
First¦[a],b¦a,b‡\
None¦[a],b¦a b‡\
First¦a,\u{2bb}¦a‡\
None¦a,\u{2bb}¦a‡\
First¦a,\u{2bb}b¦a,b‡\
None¦a,\u{2bb}b¦a b‡\
First¦a,\u{301}¦a‡\
None¦a,\u{301}¦a‡\
First¦a,\u{301}b¦a,b‡\
None¦a,\u{301}b¦a b‡\
First¦a,\u{345}¦a,\u{3b9}‡\
None¦a,\u{345}¦a \u{3b9}‡\
First¦a,\u{903}¦a \u{903}‡\
None¦a,\u{903}¦a \u{903}‡\
First¦a,&¦a &‡\
None¦a,&¦a &‡\
First¦a,&b¦a,&b‡\
None¦a,&b¦a &b‡\
First¦a,+¦a +‡\
None¦a,+¦a +‡\
First¦a,\u{266f}¦a \u{266f}‡\
None¦a,\u{266f}¦a \u{266f}‡\
First¦a,1¦a,1‡\
None¦a,1¦a 1‡\
First¦1,000,000¦1,000 000‡\
None¦1,000,000¦1 000 000‡\
First¦a,\u{bd}¦a,1 2‡\
None¦a,\u{bd}¦a 1 2‡\
First¦a,\u{2160}¦a,i‡\
None¦a,\u{2160}¦a i‡\
First¦a,\u{b2}¦a,2‡\
None¦a,\u{b2}¦a 2‡\
First¦a\u{ff0c}b¦a,b‡\
None¦a\u{ff0c}b¦a b‡\
First¦a\u{ff0c}b,c¦a,b c‡\
None¦a\u{ff0c}b,c¦a b c‡\
First¦\u{ff0c}\u{ff0c}¦‡\
None¦\u{ff0c}\u{ff0c}¦‡\
First¦a,\u{ff0c}¦a‡\
None¦a,\u{ff0c}¦a‡\
First¦毛, 泽东¦毛, 泽东‡\
None¦毛, 泽东¦毛 泽东‡\
First¦毛\u{3001}泽东¦毛 泽东‡\
None¦毛\u{3001}泽东¦毛 泽东‡\
First¦\u{627}\u{60c}\u{628}¦\u{627} \u{628}‡\
First¦\u{627},\u{628}¦\u{627},\u{628}‡\
None¦\u{627},\u{628}¦\u{627} \u{628}‡\
First¦\u{5d0}, \u{5d1}¦\u{5d0}, \u{5d1}‡\
None¦\u{5d0}, \u{5d1}¦\u{5d0} \u{5d1}‡\
First¦\u{399}\u{3c9}ά\u{3bd}\u{3bd}\u{3bf}\u{3c5}, \u{391}.¦\u{3b9}\u{3c9}\u{3b1}\u{3bd}\u{3bd}\u{3bf}\u{3c5}, \u{3b1}‡\
None¦\u{399}\u{3c9}ά\u{3bd}\u{3bd}\u{3bf}\u{3c5}, \u{391}.¦\u{3b9}\u{3c9}\u{3b1}\u{3bd}\u{3bd}\u{3bf}\u{3c5} \u{3b1}‡\
First¦\u{152}, \u{de}¦oe, th‡\
None¦\u{152}, \u{de}¦oe th‡\
First¦a,\u{df}¦a,ss‡\
None¦a,\u{df}¦a ss‡\
First¦a,...¦a‡\
None¦a,...¦a‡\
First¦...,a¦,a‡\
None¦...,a¦a‡\
First¦...,...a¦, a‡\
None¦...,...a¦a‡\
First¦a;b,c¦a b,c‡\
None¦a;b,c¦a b c‡\
First¦a\u{fe50}b¦a,b‡\
None¦a\u{fe50}b¦a b‡\
First¦a\u{fe10}b¦a,b‡\
None¦a\u{fe10}b¦a b‡\
First¦van der Berg, C., Jr.¦van der berg, c jr‡\
None¦van der Berg, C., Jr.¦van der berg c jr‡\
First¦O'Brien, [Pat]¦obrien, pat‡\
None¦O'Brien, [Pat]¦obrien pat‡\
First¦,,,¦‡\
None¦,,,¦‡\
First¦a,\u{3099}¦a‡\
None¦a,\u{3099}¦a‡\
First¦a,\u{30fc}¦a‡\
None¦a,\u{30fc}¦a‡\
First¦a,\u{3005}¦a‡\
None¦a,\u{3005}¦a‡\
First¦a,\u{640}¦a‡\
None¦a,\u{640}¦a‡\
First¦a,\u{9}¦a‡\
None¦a,\u{9}¦a‡\
First¦a,\u{a0}b¦a, b‡\
None¦a,\u{a0}b¦a b‡\
First¦a,ba,ba,ba,ba,ba,ba,ba,ba,ba,ba,ba,ba,ba,ba,ba,ba,ba,ba,ba,b¦a,ba ba ba ba ba ba ba ba ba ba ba ba ba ba ba ba ba ba ba b‡\
None¦a,ba,ba,ba,ba,ba,ba,ba,ba,ba,ba,ba,ba,ba,ba,ba,ba,ba,ba,ba,b¦a ba ba ba ba ba ba ba ba ba ba ba ba ba ba ba ba ba ba ba b‡\
First¦\u{d4b} l\u{2019}eau ς #1 一\u{3001}二¦\u{d47}\u{d3e} l eau \u{3c3} #1 一 二‡\
None¦\u{3bc} n\u{303} \u{14b}\u{14a}¦\u{3bc} n \u{14b}\u{14b}‡\
First¦\u{2122} Ḁḁ¦tm aa‡\
None¦\u{5e6}\u{5d4}\u{5f4}\u{5dc} e\u{301}¦\u{5e6}\u{5d4} \u{5dc} e‡\
First¦ϒ\u{a3}\u{a5}Nguye\u{302}\u{303}nA-B¦\u{3c5} nguyena b‡\
None¦x\u{b2} a\\b \u{a0}¦x2 a b‡\
First¦\u{2bb}okina, B\u{266d}, ᾳ¦okina, b\u{266d} \u{3b1}\u{3b9}‡\
None¦\u{bd}ሀ¦1 2ሀ‡\
First¦Ǎ\u{1ce}\u{3a3}\u{3a3}\u{3a3}\u{ff5e}\u{0}\u{1b}\u{7f}(1st ed.)¦aa\u{3c3}\u{3c3}\u{3c3} 1st ed‡\
None¦Աև\u{3031}\u{5e6}\u{5d4}\u{5f4}\u{5dc}¦աեւ\u{5e6}\u{5d4} \u{5dc}‡\
First¦\u{415}\u{308}\u{43b}\u{43a}\u{430} o\u{308}\u{304} ẘẙ ᾳ¦\u{435}\u{43b}\u{43a}\u{430} o wy \u{3b1}\u{3b9}‡\
None¦\u{5e6}\u{5d4}\u{5f4}\u{5dc}\u{2103}፩¦\u{5e6}\u{5d4} \u{5dc} c፩‡\
First¦São \u{2022} ﬅﬆ \u{64f}\u{631}¦sao stst \u{631}‡\
None¦d'\u{c6}sop\u{ae}ẘẙ¦daesop wy‡\
First¦\u{301}\u{302} \u{1f88} ǣ¦\u{3b1}\u{3b9} ae‡\
None¦\u{1fbd} Înes क़¦ines क‡\
First¦C\u{266f} tab\u{9}bed Stra\u{df}e¦c\u{266f} tab bed strasse‡\
None¦a\u{328} \u{2039}a\u{203a} #1 Ḁḁ \u{488}\u{430}¦a a #1 aa \u{430}‡\
First¦۳۴ſoftn\u{303}\u{0}\u{1b}\u{7f}¦۳۴softn‡\
None¦\u{3c3}ς\u{3a3}, \u{f77}, (1st ed.)¦\u{3c3}\u{3c3}\u{3c3} 1st ed‡\
First¦u\u{30b}, \u{aa}\u{ba}, A-B¦u, ao a b‡\
None¦აბ\u{2019}sŐzű\u{2071}\u{207f}\u{feff}a¦აბ sozuin a‡\
First¦\u{3a3}\u{3a3}\u{3a3}, cat, ᠠ, Đor\u{111}e, Ñandú¦\u{3c3}\u{3c3}\u{3c3}, cat ᠠ dorde nandu‡\
None¦\u{2090}\u{2091} ह\u{93f}न\u{94d}द\u{940}¦ae ह\u{93f}नद\u{940}‡\
First¦\u{2018}a\u{2019}, \u{60c}¦a‡\
None¦ໃ\u{eb1} a[b]c \u{fdfa} \u{623}\u{625}\u{622} \u{623}\u{625}\u{622}¦ໃ abc \u{635}\u{644}\u{649} \u{627}\u{644}\u{644}\u{647} \u{639}\u{644}\u{64a}\u{647} \u{648}\u{633}\u{644}\u{645} \u{627}\u{627}\u{627} \u{627}\u{627}\u{627}‡\
First¦o\u{308}\u{304} Stra\u{df}e [1990?] \u{2025}¦o strasse 1990‡\
None¦K, \u{3300}, \u{b4}¦k アハト‡\
First¦ΐ#1ｶ\u{ff9e}ｲﾄ\u{ff9e}¦\u{3b9}#1カイト‡\
None¦\u{391}\u{301}\u{2019}H\u{2082}Oϴ¦\u{3b1} h2o\u{3b8}‡\
First¦\u{2f00}Đor\u{111}e\u{1fbd}\u{20ac}𝟘¦一dorde 0‡\
None¦CAT \u{cca}¦cat \u{cc2}‡\
First¦GROẞ, a^b¦gross, a b‡\
None¦\u{2170}ⅿ e\u{301}\u{302} a\u{7f}b ব\u{9be}\u{982}ল\u{9be} \u{3099}か¦im e a b ব\u{9be}\u{982}ল\u{9be} か‡\
First¦\u{5d0}-\u{5d1}, C\u{266f}, 一\u{3001}二, 1-2¦\u{5d0} \u{5d1}, c\u{266f} 一 二 1 2‡\
None¦\u{37a}a\u{7f}b\u{138}¦\u{3b9}a b\u{138}‡\
First¦\u{2153}\u{9be}İstanbulHawai\u{2bb}ia[b]c¦1 3\u{9be}istanbulhawaiiabc‡\
None¦ƀ \u{2019} a^b  \u{301} a¦ƀ a b a‡\
First¦E\u{300}, ƀ, \u{415}\u{308}\u{43b}\u{43a}\u{430}, \u{488}x, [sic]¦e, ƀ \u{435}\u{43b}\u{43a}\u{430} x sic‡\
None¦i\u{307} ѹ¦i ѹ‡\
First¦\u{ff5e}Ñandú\u{300e}\u{300f}\u{bd}¦nandu 1 2‡\
None¦I\u{307}\u{1fbd}a\u{2060}bẘẙǣ¦i a bwyae‡\
First¦,,か\u{3099}¦, か‡\
None¦e\u{301}\u{302} ,,¦e‡\
First¦E\u{300}\u{300c}本\u{300d}¦e 本‡\
None¦\u{3bc}, Ꭰꭰ, \u{2103}, Việt Nam, ẚ¦\u{3bc} ᎠᎠ c viet nam a‡\
First¦Őzű, x\u{b9}\u{b3}, Žižek, 豈, Nguyễn¦ozu, x13 zizek 豈 nguyen‡\
None¦ừứ, か\u{3099}, မ\u{103c}န\u{103a}မ\u{102c}, \u{5dd}\u{5de}¦uu か မ\u{103c}နမ\u{102c} \u{5dd}\u{5de}‡\
First¦Nguyễn, [sic], \u{b7}, ι, \u{b8}¦nguyen, sic \u{3b9}‡\
None¦Ǖ a\u{0}b Nguye\u{302}\u{303}n \u{2019}¦u a b nguyen‡\
First¦\u{345}a𝟘\u{2f00}Žižek¦\u{3b9}a0一zizek‡\
None¦\u{fb4f}\u{20ac}Kừứ¦\u{5d0}\u{5dc} kuu‡\
First¦\u{2019}, և, ς, The Letters, \u{142}¦, եւ \u{3c3} the letters l‡\
None¦\u{ff06}\u{ff0b}\u{ff20}\u{ff03}한국어¦&+@#한국어‡\
First¦\u{670}\u{fe8d}{x}\u{1fbc}¦\u{627} x \u{3b1}\u{3b9}‡\
None¦a\u{2028}b İstanbul¦a b istanbul‡\
First¦ব\u{9be}\u{982}ল\u{9be}, 1-2, zero\u{200b}width, \u{2bb}¦ব\u{9be}\u{982}ল\u{9be}, 1 2 zero width‡\
None¦$\u{20ac}\u{2190}¦‡\
First¦\u{212b}\u{3231}\u{2bb}¦a 株‡\
None¦\u{2103}\u{5d0}\u{5be}\u{5d1}a\u{85}ba|bơưƠƯ¦c\u{5d0} \u{5d1}a ba bouou‡\
None¦Pražské d\u{11b}jiny, \u{2167} (\u{c6}) Pražské d\u{11b}jiny, \u{2167} (\u{c6}) Pražské d\u{11b}jiny, \u{2167} (\u{c6}) Pražské d\u{11b}jiny, \u{2167} (\u{c6}) Pražské d\u{11b}jiny, \u{2167} (\u{c6}) Pražské d\u{11b}jiny, \u{2167} (\u{c6}) Pražské d\u{11b}jiny, \u{2167} (\u{c6}) Pražské d\u{11b}jiny, \u{2167} (\u{c6}) Pražské d\u{11b}jiny, \u{2167} (\u{c6}) Pražské d\u{11b}jiny, \u{2167} (\u{c6}) Pražské d\u{11b}jiny, \u{2167} (\u{c6}) Pražské d\u{11b}jiny, \u{2167} (\u{c6}) Pražské d\u{11b}jiny, \u{2167} (\u{c6}) Pražské d\u{11b}jiny, \u{2167} (\u{c6}) Pražské d\u{11b}jiny, \u{2167} (\u{c6}) Pražské d\u{11b}jiny, \u{2167} (\u{c6}) Pražské d\u{11b}jiny, \u{2167} (\u{c6}) Pražské d\u{11b}jiny, \u{2167} (\u{c6}) Pražské d\u{11b}jiny, \u{2167} (\u{c6}) Pražské d\u{11b}jiny, \u{2167} (\u{c6}) Pražské d\u{11b}jiny, \u{2167} (\u{c6}) Pražské d\u{11b}jiny, \u{2167} (\u{c6}) Pražské d\u{11b}jiny, \u{2167} (\u{c6}) Pražské d\u{11b}jiny, \u{2167} (\u{c6}) Pražské d\u{11b}jiny, \u{2167} (\u{c6}) Pražské d\u{11b}jiny, \u{2167} (\u{c6}) Pražské d\u{11b}jiny, \u{2167} (\u{c6}) Pražské d\u{11b}jiny, \u{2167} (\u{c6}) Pražské d\u{11b}jiny, \u{2167} (\u{c6}) Pražské d\u{11b}jiny, \u{2167} (\u{c6}) Pražské d\u{11b}jiny, \u{2167} (\u{c6}) Pražské d\u{11b}jiny, \u{2167} (\u{c6}) Pražské d\u{11b}jiny, \u{2167} (\u{c6}) Pražské d\u{11b}jiny, \u{2167} (\u{c6}) Pražské d\u{11b}jiny, \u{2167} (\u{c6}) Pražské d\u{11b}jiny, \u{2167} (\u{c6}) Pražské d\u{11b}jiny, \u{2167} (\u{c6}) Pražské d\u{11b}jiny, \u{2167} (\u{c6}) Pražské d\u{11b}jiny, \u{2167} (\u{c6}) Pražské d\u{11b}jiny, \u{2167} (\u{c6}) ¦prazske dejiny viii ae prazske dejiny viii ae prazske dejiny viii ae prazske dejiny viii ae prazske dejiny viii ae prazske dejiny viii ae prazske dejiny viii ae prazske dejiny viii ae prazske dejiny viii ae prazske dejiny viii ae prazske dejiny viii ae prazske dejiny viii ae prazske dejiny viii ae prazske dejiny viii ae prazske dejiny viii ae prazske dejiny viii ae prazske dejiny viii ae prazske dejiny viii ae prazske dejiny viii ae prazske dejiny viii ae prazske dejiny viii ae prazske dejiny viii ae prazske dejiny viii ae prazske dejiny viii ae prazske dejiny viii ae prazske dejiny viii ae prazske dejiny viii ae prazske dejiny viii ae prazske dejiny viii ae prazske dejiny viii ae prazske dejiny viii ae prazske dejiny viii ae prazske dejiny viii ae prazske dejiny viii ae prazske dejiny viii ae prazske dejiny viii ae prazske dejiny viii ae prazske dejiny viii ae prazske dejiny viii ae prazske dejiny viii ae‡\
First¦Pražské d\u{11b}jiny, \u{2167} (\u{c6}) Pražské d\u{11b}jiny, \u{2167} (\u{c6}) Pražské d\u{11b}jiny, \u{2167} (\u{c6}) Pražské d\u{11b}jiny, \u{2167} (\u{c6}) Pražské d\u{11b}jiny, \u{2167} (\u{c6}) Pražské d\u{11b}jiny, \u{2167} (\u{c6}) Pražské d\u{11b}jiny, \u{2167} (\u{c6}) Pražské d\u{11b}jiny, \u{2167} (\u{c6}) Pražské d\u{11b}jiny, \u{2167} (\u{c6}) Pražské d\u{11b}jiny, \u{2167} (\u{c6}) Pražské d\u{11b}jiny, \u{2167} (\u{c6}) Pražské d\u{11b}jiny, \u{2167} (\u{c6}) Pražské d\u{11b}jiny, \u{2167} (\u{c6}) Pražské d\u{11b}jiny, \u{2167} (\u{c6}) Pražské d\u{11b}jiny, \u{2167} (\u{c6}) Pražské d\u{11b}jiny, \u{2167} (\u{c6}) Pražské d\u{11b}jiny, \u{2167} (\u{c6}) Pražské d\u{11b}jiny, \u{2167} (\u{c6}) Pražské d\u{11b}jiny, \u{2167} (\u{c6}) Pražské d\u{11b}jiny, \u{2167} (\u{c6}) Pražské d\u{11b}jiny, \u{2167} (\u{c6}) Pražské d\u{11b}jiny, \u{2167} (\u{c6}) Pražské d\u{11b}jiny, \u{2167} (\u{c6}) Pražské d\u{11b}jiny, \u{2167} (\u{c6}) Pražské d\u{11b}jiny, \u{2167} (\u{c6}) Pražské d\u{11b}jiny, \u{2167} (\u{c6}) Pražské d\u{11b}jiny, \u{2167} (\u{c6}) Pražské d\u{11b}jiny, \u{2167} (\u{c6}) Pražské d\u{11b}jiny, \u{2167} (\u{c6}) Pražské d\u{11b}jiny, \u{2167} (\u{c6}) Pražské d\u{11b}jiny, \u{2167} (\u{c6}) Pražské d\u{11b}jiny, \u{2167} (\u{c6}) Pražské d\u{11b}jiny, \u{2167} (\u{c6}) Pražské d\u{11b}jiny, \u{2167} (\u{c6}) Pražské d\u{11b}jiny, \u{2167} (\u{c6}) Pražské d\u{11b}jiny, \u{2167} (\u{c6}) Pražské d\u{11b}jiny, \u{2167} (\u{c6}) Pražské d\u{11b}jiny, \u{2167} (\u{c6}) Pražské d\u{11b}jiny, \u{2167} (\u{c6}) Pražské d\u{11b}jiny, \u{2167} (\u{c6}) ¦prazske dejiny, viii ae prazske dejiny viii ae prazske dejiny viii ae prazske dejiny viii ae prazske dejiny viii ae prazske dejiny viii ae prazske dejiny viii ae prazske dejiny viii ae prazske dejiny viii ae prazske dejiny viii ae prazske dejiny viii ae prazske dejiny viii ae prazske dejiny viii ae prazske dejiny viii ae prazske dejiny viii ae prazske dejiny viii ae prazske dejiny viii ae prazske dejiny viii ae prazske dejiny viii ae prazske dejiny viii ae prazske dejiny viii ae prazske dejiny viii ae prazske dejiny viii ae prazske dejiny viii ae prazske dejiny viii ae prazske dejiny viii ae prazske dejiny viii ae prazske dejiny viii ae prazske dejiny viii ae prazske dejiny viii ae prazske dejiny viii ae prazske dejiny viii ae prazske dejiny viii ae prazske dejiny viii ae prazske dejiny viii ae prazske dejiny viii ae prazske dejiny viii ae prazske dejiny viii ae prazske dejiny viii ae prazske dejiny viii ae‡\
";

/// Codes, the heading, and the subfields.
pub(crate) const HEADINGS: &str = "\
abcdq¦‡\
abcdn¦‡\
abcdq¦¦a=‡\
abcdn¦¦a=‡\
abcdq¦¦a=...‡\
abcdn¦¦a=...‡\
abcdq¦hill, ann¦a=Hill, Ann‡\
abcdn¦hill, ann¦a=Hill, Ann‡\
abcdq¦hill, ann 1900¦a=Hill, Ann,¦d=1900-‡\
abcdn¦hill, ann 1900¦a=Hill, Ann,¦d=1900-‡\
abcdq¦dvorak, antonin 1841 1904¦a=Dvořák, Antonín,¦d=1841-1904.‡\
abcdn¦dvorak, antonin 1841 1904¦a=Dvořák, Antonín,¦d=1841-1904.‡\
abcdq¦hill ann b¦a=Hill¦a=Ann, B‡\
abcdn¦hill ann b¦a=Hill¦a=Ann, B‡\
abcdq¦sir first hill, ann¦c=Sir, first,¦a=Hill, Ann‡\
abcdn¦sir first hill, ann¦c=Sir, first,¦a=Hill, Ann‡\
abcdq¦x y a, b¦q=(x, y)¦a=a, b‡\
abcdn¦a, b¦q=(x, y)¦a=a, b‡\
abcdq¦ii c d¦b=II,¦a=...¦a=c, d‡\
abcdn¦ii c d¦b=II,¦a=...¦a=c, d‡\
abcdq¦c d¦a=¦a=c, d‡\
abcdn¦c d¦a=¦a=c, d‡\
abcdq¦¦z=x‡\
abcdn¦¦z=x‡\
abcdq¦hill, ann¦e=author¦a=Hill, Ann¦t=Title‡\
abcdn¦hill, ann¦e=author¦a=Hill, Ann¦t=Title‡\
abcdq¦public library music dept 1990¦a=Public Library¦b=Music, Dept.¦n=(2nd :¦d=1990)‡\
abcdn¦public library music dept 2nd 1990¦a=Public Library¦b=Music, Dept.¦n=(2nd :¦d=1990)‡\
abcdq¦congress 1990 prague¦a=Congress¦n=2,¦d=1990¦c=Prague‡\
abcdn¦congress 2 1990 prague¦a=Congress¦n=2,¦d=1990¦c=Prague‡\
abcdq¦毛, 泽东 1893 1976¦a=毛, 泽东¦d=1893-1976‡\
abcdn¦毛, 泽东 1893 1976¦a=毛, 泽东¦d=1893-1976‡\
abcdq¦obrien, pat patrick¦a=O'Brien, [Pat]¦q=(Patrick)‡\
abcdn¦obrien, pat¦a=O'Brien, [Pat]¦q=(Patrick)‡\
abcdq¦1841 dr iii x¦d=1841¦c=Dr.¦b=III¦a=X‡\
abcdn¦1841 dr iii x¦d=1841¦c=Dr.¦b=III¦a=X‡\
abcdq¦,lead¦a=,lead‡\
abcdn¦,lead¦a=,lead‡\
abcdq¦trail x¦a=trail,¦c=, x‡\
abcdn¦trail x¦a=trail,¦c=, x‡\
abcdq¦small¦A=capital code¦a=small‡\
abcdn¦small¦A=capital code¦a=small‡\
abcdq¦x¦1=digit¦a=x‡\
abcdn¦x¦1=digit¦a=x‡\
abcdq¦¦a=\u{301}¦d=\u{2bb}‡\
abcdn¦¦a=\u{301}¦d=\u{2bb}‡\
abcdq¦oe, th l d¦a=\u{152}, \u{de},¦a=\u{142}, \u{111}‡\
abcdn¦oe, th l d¦a=\u{152}, \u{de},¦a=\u{142}, \u{111}‡\
abcdq¦a b c d e¦a=a,¦b=b,c¦a=d,e‡\
abcdn¦a b c d e¦a=a,¦b=b,c¦a=d,e‡\
abcdq¦x y z¦b=x¦b=y¦b=...¦b=z‡\
abcdn¦x y z¦b=x¦b=y¦b=...¦b=z‡\
¦¦a=x, y¦b=z‡\
b¦z w¦a=x, y¦b=z, w‡\
ba¦x y z, w¦b=x, y¦a=z, w‡\
aa¦x, y¦a=x, y‡\
";

/// Codes, the characters to skip, the title, and the subfields.
pub(crate) const TITLES: &str = "\
anp¦0¦‡\
abnp¦1¦‡\
anp¦3¦‡\
abnp¦4¦‡\
anp¦9¦‡\
abnp¦0¦¦a=‡\
abnp¦1¦¦a=‡\
anp¦2¦¦a=‡\
abnp¦3¦¦a=‡\
abnp¦4¦¦a=‡\
anp¦5¦¦a=‡\
abnp¦9¦¦a=‡\
abnp¦0¦¦a=...‡\
anp¦1¦¦a=...‡\
abnp¦3¦¦a=...‡\
anp¦4¦¦a=...‡\
abnp¦9¦¦a=...‡\
anp¦0¦the letters¦a=The letters /¦c=edited.‡\
abnp¦1¦he letters¦a=The letters /¦c=edited.‡\
abnp¦2¦e letters¦a=The letters /¦c=edited.‡\
anp¦3¦letters¦a=The letters /¦c=edited.‡\
abnp¦4¦letters¦a=The letters /¦c=edited.‡\
abnp¦5¦etters¦a=The letters /¦c=edited.‡\
anp¦9¦rs¦a=The letters /¦c=edited.‡\
abnp¦0¦red blue ships a b part 1 sea¦a=Red, blue ships :¦b=a, b¦n=Part 1,¦p=Sea‡\
abnp¦1¦ed blue ships a b part 1 sea¦a=Red, blue ships :¦b=a, b¦n=Part 1,¦p=Sea‡\
abnp¦3¦blue ships a b part 1 sea¦a=Red, blue ships :¦b=a, b¦n=Part 1,¦p=Sea‡\
abnp¦4¦blue ships a b part 1 sea¦a=Red, blue ships :¦b=a, b¦n=Part 1,¦p=Sea‡\
abnp¦9¦ships a b part 1 sea¦a=Red, blue ships :¦b=a, b¦n=Part 1,¦p=Sea‡\
abnp¦0¦before the cat¦b=before¦a=The cat‡\
anp¦1¦he cat¦b=before¦a=The cat‡\
abnp¦2¦before e cat¦b=before¦a=The cat‡\
abnp¦3¦before cat¦b=before¦a=The cat‡\
anp¦4¦cat¦b=before¦a=The cat‡\
abnp¦5¦before at¦b=before¦a=The cat‡\
abnp¦9¦before the cat¦b=before¦a=The cat‡\
anp¦0¦elan vital¦a=Élan vital‡\
abnp¦1¦lan vital¦a=Élan vital‡\
anp¦3¦n vital¦a=Élan vital‡\
abnp¦4¦vital¦a=Élan vital‡\
anp¦9¦l¦a=Élan vital‡\
abnp¦0¦elan vital¦a=E\u{301}lan vital‡\
abnp¦1¦lan vital¦a=E\u{301}lan vital‡\
anp¦2¦lan vital¦a=E\u{301}lan vital‡\
abnp¦3¦an vital¦a=E\u{301}lan vital‡\
abnp¦4¦n vital¦a=E\u{301}lan vital‡\
anp¦5¦vital¦a=E\u{301}lan vital‡\
abnp¦9¦al¦a=E\u{301}lan vital‡\
abnp¦0¦東京の本¦a=東京の本‡\
anp¦1¦京の本¦a=東京の本‡\
abnp¦3¦本¦a=東京の本‡\
anp¦4¦¦a=東京の本‡\
abnp¦9¦東京の本¦a=東京の本‡\
anp¦0¦abcd the second¦a=abcd¦a=The second‡\
abnp¦1¦bcd the second¦a=abcd¦a=The second‡\
abnp¦2¦cd the second¦a=abcd¦a=The second‡\
anp¦3¦d the second¦a=abcd¦a=The second‡\
abnp¦4¦the second¦a=abcd¦a=The second‡\
abnp¦5¦abcd the second¦a=abcd¦a=The second‡\
anp¦9¦abcd the second¦a=abcd¦a=The second‡\
abnp¦0¦the x¦a=The¦b=x‡\
abnp¦1¦he x¦a=The¦b=x‡\
abnp¦3¦x¦a=The¦b=x‡\
abnp¦4¦the x¦a=The¦b=x‡\
abnp¦9¦the x¦a=The¦b=x‡\
abnp¦0¦th x¦a=Th¦b=x‡\
anp¦1¦h¦a=Th¦b=x‡\
abnp¦2¦x¦a=Th¦b=x‡\
abnp¦3¦th x¦a=Th¦b=x‡\
anp¦4¦th¦a=Th¦b=x‡\
abnp¦5¦th x¦a=Th¦b=x‡\
abnp¦9¦th x¦a=Th¦b=x‡\
anp¦0¦the cat¦h=[sound]¦a=The cat‡\
abnp¦1¦he cat¦h=[sound]¦a=The cat‡\
anp¦3¦cat¦h=[sound]¦a=The cat‡\
abnp¦4¦cat¦h=[sound]¦a=The cat‡\
anp¦9¦the cat¦h=[sound]¦a=The cat‡\
abnp¦0¦¦c=none‡\
abnp¦1¦¦c=none‡\
anp¦2¦¦c=none‡\
abnp¦3¦¦c=none‡\
abnp¦4¦¦c=none‡\
anp¦5¦¦c=none‡\
abnp¦9¦¦c=none‡\
abnp¦0¦x¦a=\u{1f600}\u{1f600}x‡\
anp¦1¦x¦a=\u{1f600}\u{1f600}x‡\
abnp¦3¦¦a=\u{1f600}\u{1f600}x‡\
anp¦4¦x¦a=\u{1f600}\u{1f600}x‡\
abnp¦9¦x¦a=\u{1f600}\u{1f600}x‡\
anp¦0¦lete¦a='L'été‡\
abnp¦1¦lete¦a='L'été‡\
abnp¦2¦ete¦a='L'été‡\
anp¦3¦ete¦a='L'été‡\
abnp¦4¦te¦a='L'été‡\
abnp¦5¦e¦a='L'été‡\
anp¦9¦lete¦a='L'été‡\
abnp¦0¦the cat¦a=...The cat‡\
abnp¦1¦the cat¦a=...The cat‡\
abnp¦3¦the cat¦a=...The cat‡\
abnp¦4¦he cat¦a=...The cat‡\
abnp¦9¦t¦a=...The cat‡\
abnp¦0¦2 a book¦n=2¦a=A book¦p=...‡\
anp¦1¦2 book¦n=2¦a=A book¦p=...‡\
abnp¦2¦2 book¦n=2¦a=A book¦p=...‡\
abnp¦3¦2 ook¦n=2¦a=A book¦p=...‡\
anp¦4¦2 ok¦n=2¦a=A book¦p=...‡\
abnp¦5¦2 k¦n=2¦a=A book¦p=...‡\
abnp¦9¦2 a book¦n=2¦a=A book¦p=...‡\
anp¦0¦a book¦a= A book‡\
abnp¦1¦a book¦a= A book‡\
anp¦3¦book¦a= A book‡\
abnp¦4¦ook¦a= A book‡\
anp¦9¦a book¦a= A book‡\
abnp¦0¦lx¦a=L\u{301}\u{301}\u{301}\u{301}x‡\
abnp¦1¦x¦a=L\u{301}\u{301}\u{301}\u{301}x‡\
anp¦2¦x¦a=L\u{301}\u{301}\u{301}\u{301}x‡\
abnp¦3¦x¦a=L\u{301}\u{301}\u{301}\u{301}x‡\
abnp¦4¦x¦a=L\u{301}\u{301}\u{301}\u{301}x‡\
anp¦5¦x¦a=L\u{301}\u{301}\u{301}\u{301}x‡\
abnp¦9¦lx¦a=L\u{301}\u{301}\u{301}\u{301}x‡\
b¦4¦x¦a=The cat¦b=x‡\
¦0¦¦a=x¦b=y‡\
a¦255¦¦a=xxxxxxxxxxxxxxxxxxxxxxxxxxxxxxxxxxxxxxxxxxxxxxxxxxxxxxxxxxxxxxxxxxxxxxxxxxxxxxxxxxxxxxxxxxxxxxxxxxxxxxxxxxxxxxxxxxxxxxxxxxxxxxxxxxxxxxxxxxxxxxxxxxxxxxxxxxxxxxxxxxxxxxxxxxxxxxxxxxxxxxxxxxxxxxxxxxxxxxxxxxxxxxxxxxxxxxxxxxxxxxxxxxxxxxxxxxxxxxxxxxxxxxxxxxxxxxx‡\
a¦254¦x¦a=xxxxxxxxxxxxxxxxxxxxxxxxxxxxxxxxxxxxxxxxxxxxxxxxxxxxxxxxxxxxxxxxxxxxxxxxxxxxxxxxxxxxxxxxxxxxxxxxxxxxxxxxxxxxxxxxxxxxxxxxxxxxxxxxxxxxxxxxxxxxxxxxxxxxxxxxxxxxxxxxxxxxxxxxxxxxxxxxxxxxxxxxxxxxxxxxxxxxxxxxxxxxxxxxxxxxxxxxxxxxxxxxxxxxxxxxxxxxxxxxxxxxxxxxxxxxxxx‡\
a¦255¦xxxxxxxxxxxxxxxxxxxxxxxxxxxxxxxxxxxxxxxxxxxxxxxxxxxxxxxxxxxxxxxxxxxxxxxxxxxxxxxxxxxxxxxxxxxxxxxxxxxxxxxxxxxxxxxxxxxxxxxxxxxxxxxxxxxxxxxxxxxxxxxxxxxxxxxxxxxxxxxxxxxxxxxxxxxxxxxxxxxxxxxxxxxxxxxxxxxxxxxxxxxxxxxxxxxxxxxxxxxxxxxxxxxxxxxxxxxxxxxxxxxxxxxxxxxxxx¦a=xxxxxxxxxxxxxxxxxxxxxxxxxxxxxxxxxxxxxxxxxxxxxxxxxxxxxxxxxxxxxxxxxxxxxxxxxxxxxxxxxxxxxxxxxxxxxxxxxxxxxxxxxxxxxxxxxxxxxxxxxxxxxxxxxxxxxxxxxxxxxxxxxxxxxxxxxxxxxxxxxxxxxxxxxxxxxxxxxxxxxxxxxxxxxxxxxxxxxxxxxxxxxxxxxxxxxxxxxxxxxxxxxxxxxxxxxxxxxxxxxxxxxxxxxxxxxx‡\
";
