//! Worked records. `¦` parts the cells of a case, and `‡` ends it.

/// A library's own record, of a book of letters, its seven lists, and its keys.
pub(crate) const OWN: &str = "\
LIBA¦00402cam a2200157 a 4500001001300000003000400013005001700017008004100034010002200075020002200097035002400119040001300143100003600156245002700192852002500219\x1E   75425165 \x1EDLC\x1E19990521130000.0\x1E240101s1975    xx                  eng d\x1E  \x1Fa   75-425165//r75\x1E  \x1Fa0306406152 (pbk.)\x1E  \x1Fa(OCoLC)ocm00012345 \x1E  \x1FaDLC\x1FcDLC\x1E1 \x1FaDvořák, Antonín,\x1Fd1841-1904.\x1E14\x1FaThe letters /\x1Fcedited.\x1E  \x1FaDLC\x1FbMain\x1FhML410.D99\x1E\x1D¦(=LIBA)75425165; (DLC)75425165; (OCoLC)12345 | am | 9780306406157 |  | letters | 1975 | dvorak, antonin 1841 1904¦(=LIBA)75425165; (DLC)75425165; (OCoLC)12345; 9780306406157; letters‡\
";

/// Records without names, and their seven lists: three with one ISBN in its two forms, the last of them of another type; one
/// whose ISBN has an X, and words after it; and one whose ISBN fails its check.
pub(crate) const ISBNS: &str = "\
LIBA¦00141nam a2200073 a 4500001000300000008004100003020001500044245000800059\x1Er1\x1E240101s1999    xx                  eng d\x1E  \x1Fa0306406152\x1E00\x1FaCat\x1E\x1D¦(=LIBA)r1 | am | 9780306406157 |  | cat | 1999 | ‡\
LIBA¦00148nam a2200073 a 4500001000300000008004100003020002200044245000800066\x1Er2\x1E240101s1999    xx                  eng d\x1E  \x1Fa978-0-306-40615-7\x1E00\x1FaCat\x1E\x1D¦(=LIBA)r2 | am | 9780306406157 |  | cat | 1999 | ‡\
LIBA¦00148nim a2200073 a 4500001000300000008004100003020002200044245000800066\x1Er2\x1E240101s1999    xx                  eng d\x1E  \x1Fa978-0-306-40615-7\x1E00\x1FaCat\x1E\x1D¦(=LIBA)r2 | im | 9780306406157 |  | cat | 1999 | ‡\
LIBA¦00148nam a2200073 a 4500001000300000008004100003020002200044245000800066\x1Er1\x1E240101s1999    xx                  eng d\x1E  \x1Fa316148410X (pbk.)\x1E00\x1FaCat\x1E\x1D¦(=LIBA)r1 | am | 9783161484100 |  | cat | 1999 | ‡\
LIBA¦00141nam a2200073 a 4500001000300000008004100003020001500044245000800059\x1Er1\x1E240101s1999    xx                  eng d\x1E  \x1Fa3161484101\x1E00\x1FaCat\x1E\x1D¦(=LIBA)r1 | am |  |  | cat | 1999 | ‡\
";

/// The first of these records with each of the two others of its ISBN, and whether they match.
pub(crate) const TYPES: &str = "\
LIBA¦00141nam a2200073 a 4500001000300000008004100003020001500044245000800059\x1Er1\x1E240101s1999    xx                  eng d\x1E  \x1Fa0306406152\x1E00\x1FaCat\x1E\x1D¦LIBA¦00148nam a2200073 a 4500001000300000008004100003020002200044245000800066\x1Er2\x1E240101s1999    xx                  eng d\x1E  \x1Fa978-0-306-40615-7\x1E00\x1FaCat\x1E\x1D¦yes‡\
LIBA¦00141nam a2200073 a 4500001000300000008004100003020001500044245000800059\x1Er1\x1E240101s1999    xx                  eng d\x1E  \x1Fa0306406152\x1E00\x1FaCat\x1E\x1D¦LIBA¦00148nim a2200073 a 4500001000300000008004100003020002200044245000800066\x1Er2\x1E240101s1999    xx                  eng d\x1E  \x1Fa978-0-306-40615-7\x1E00\x1FaCat\x1E\x1D¦no‡\
";
