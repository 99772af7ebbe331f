//! Records with the work keys that another program gave them. `¦` parts the cells of a case, and `‡` ends it.

/// The key, a library, a control number, and the fields: tag, indicators, and subfields after `$`.
pub(crate) const WORK_KEYS: &str = "\
cat///LIBA.id¦LIBA¦id¦24500$aCat‡\
cat///LIBA.x1¦LIBA¦x1¦24010$aCats¦24500$aCat‡\
hill, ann/red ships¦LIBA¦a1¦1001 $aHill, Ann¦24500$aRed ships‡\
dvorak, antonin 1841 1904/letters¦LIBA¦75425165¦1001 $aDvořák, Antonín,$d1841-1904.¦24514$aThe letters /$cedited.‡\
hill, ann/cat¦LIBA¦w1¦1001 $aHill, Ann¦24500$aCat‡\
hill, ann/cats¦LIBA¦w1¦1001 $aHill, Ann¦24010$aCats¦24500$aCat‡\
hill, ann/cat¦LIBA¦w1¦1001 $aHill, Ann¦24010$a...¦24500$aCat‡\
hill, ann/cat¦LIBA¦w1¦1001 $aHill, Ann¦24010$lEnglish¦24500$aCat‡\
hill, ann/cats¦LIBA¦w1¦1001 $aHill, Ann¦24014$aThe cats¦24500$aCat‡\
hill, ann/the cats¦LIBA¦w1¦1001 $aHill, Ann¦2401 $aThe cats¦24500$aCat‡\
hill, ann/he cats¦LIBA¦w1¦1001 $aHill, Ann¦24041$aThe cats¦24500$aCat‡\
hill, ann/cats 2 night¦LIBA¦w1¦1001 $aHill, Ann¦24010$aCats$n2$pNight$lCzech¦24500$aCat‡\
hill, ann/cats¦LIBA¦w1¦1001 $aHill, Ann¦24010$aCats$bnot this¦24500$aCat‡\
hill, ann ii sir 1900 anna/cat¦LIBA¦w1¦1001 $aHill, Ann$bII$cSir$d1900-$q(Anna)$nno$eauthor$tno¦24500$aCat‡\
library dept prague 1990 2/cat¦LIBA¦w1¦1102 $aLibrary$bDept.$c(Prague)$d1990$n2$qno¦24500$aCat‡\
congress 2 1990 prague/cat¦LIBA¦w1¦1112 $aCongress$n2$d1990$cPrague$qno$eno¦24500$aCat‡\
cat///LIBA.w1¦LIBA¦w1¦1001 $a...¦24500$aCat‡\
cat///LIBA.w1¦LIBA¦w1¦1001 $a...¦24010$aCats¦24500$aCat‡\
cat//day, bo¦LIBA¦w1¦1001 $a¦24500$aCat¦7001 $aDay, Bo‡\
1900/cat¦LIBA¦w1¦1001 $d1900¦24500$aCat‡\
cat///LIBA.w1¦LIBA¦w1¦1102 $qx¦24500$aCat‡\
cat///LIBA.w1¦LIBA¦w1¦1001 $eauthor¦24500$aCat‡\
/bible¦LIBA¦w1¦1300 $aBible¦24500$aCat‡\
/bible¦LIBA¦w1¦1304 $aThe Bible¦24500$aCat‡\
/the bible¦LIBA¦w1¦130 4$aThe Bible¦24500$aCat‡\
/bible i genesis¦LIBA¦w1¦1300 $aBible$nI$pGenesis$bno¦24500$aCat‡\
cat///LIBA.w1¦LIBA¦w1¦1300 $a...¦24500$aCat‡\
cat//day, bo¦LIBA¦w1¦1300 $a¦24500$aCat¦7102 $aDay, Bo‡\
/bible¦LIBA¦w1¦1300 $aBible¦24010$aCats¦24500$aCat‡\
/bible¦LIBA¦w1¦1300 $aBible¦24500$aCat¦7001 $aDay‡\
cat//day, bo¦LIBA¦w1¦24500$aCat¦7001 $aDay, Bo‡\
cat//mid¦LIBA¦w1¦24500$aCat¦7001 $aZed¦7102 $aMid¦7112 $aNew‡\
cat//aman¦LIBA¦w1¦24500$aCat¦7001 $aÅman¦7001 $aZed¦7001 $a東‡\
cat//zed¦LIBA¦w1¦24500$aCat¦7001 $a...¦7001 $aZed‡\
cat///LIBA.w1¦LIBA¦w1¦24500$aCat¦7001 $a...¦7102 $a,‡\
cat//day, bo 1900¦LIBA¦w1¦24500$aCat¦7001 $aDay, Bo$d1900$tBook$n2‡\
cat//day 2¦LIBA¦w1¦24500$aCat¦7102 $aDay$n2$q3‡\
cat//day¦LIBA¦w1¦24010$aCats¦24500$aCat¦7001 $aDay‡\
cat///LIBA.w1¦LIBA¦w1¦24500$aCat‡\
cat///LIBA.w1¦LIBA¦w1¦24500$aCat‡\
cat///LIBA.w1¦LIBA¦w1¦24010$aCats¦24500$aCat‡\
dvorak, antonin 1841 1904/cat¦LIBA¦w1¦1001 $aDvořák, Antonín,$d1841-1904.¦24500$aCat‡\
毛, 泽东/cat¦LIBA¦w1¦1001 $a毛, 泽东¦24500$aCat‡\
a b, c/cat¦LIBA¦w1¦1001 $aA/B, C¦24500$aCat‡\
cat///LIBA.w1¦LIBA¦w1¦1001 $a,¦24500$aCat‡\
cat///LIBA.w1¦LIBA¦w1¦1102 $a'¦24500$aCat‡\
hill, ann bo cy/cat¦LIBA¦w1¦1001 $aHill, Ann$aBo, Cy¦24500$aCat‡\
sir x hill, ann/cat¦LIBA¦w1¦1001 $cSir, x,$aHill, Ann¦24500$aCat‡\
cat///LIBA.w1¦LIBA¦w1¦1001 $a\u{2bb}¦24500$aCat‡\
cat///LIBB.t0¦LIBB¦t0¦24500$aCat‡\
hill, ann/cat¦LIBB¦t0¦1001 $aHill, Ann¦24500$aCat‡\
cat///LIBB.t1¦LIBB¦t1¦24504$aThe cat‡\
hill, ann/cat¦LIBB¦t1¦1001 $aHill, Ann¦24504$aThe cat‡\
letters///LIBB.t2¦LIBB¦t2¦24514$aThe letters /$cedited.‡\
hill, ann/letters¦LIBB¦t2¦1001 $aHill, Ann¦24514$aThe letters /$cedited.‡\
the cat///LIBB.t3¦LIBB¦t3¦2450 $aThe cat‡\
hill, ann/the cat¦LIBB¦t3¦1001 $aHill, Ann¦2450 $aThe cat‡\
the cat///LIBB.t4¦LIBB¦t4¦24509$aThe cat‡\
hill, ann/the cat¦LIBB¦t4¦1001 $aHill, Ann¦24509$aThe cat‡\
///LIBB.t5¦LIBB¦t5¦24503$aThe‡\
hill, ann/¦LIBB¦t5¦1001 $aHill, Ann¦24503$aThe‡\
the///LIBB.t6¦LIBB¦t6¦24504$aThe‡\
hill, ann/the¦LIBB¦t6¦1001 $aHill, Ann¦24504$aThe‡\
e///LIBB.t7¦LIBB¦t7¦24502$aThe‡\
hill, ann/e¦LIBB¦t7¦1001 $aHill, Ann¦24502$aThe‡\
///LIBB.t8¦LIBB¦t8¦24500$a...‡\
hill, ann/¦LIBB¦t8¦1001 $aHill, Ann¦24500$a...‡\
///LIBB.t9¦LIBB¦t9¦24500$cno title‡\
hill, ann/¦LIBB¦t9¦1001 $aHill, Ann¦24500$cno title‡\
cat a dog 1 paws///LIBB.t10¦LIBB¦t10¦24500$aCat$b, a dog$n1$pPaws$hno‡\
hill, ann/cat a dog 1 paws¦LIBB¦t10¦1001 $aHill, Ann¦24500$aCat$b, a dog$n1$pPaws$hno‡\
sub cat///LIBB.t11¦LIBB¦t11¦24500$bsub$aCat‡\
hill, ann/sub cat¦LIBB¦t11¦1001 $aHill, Ann¦24500$bsub$aCat‡\
lan///LIBB.t12¦LIBB¦t12¦24501$aÉlan‡\
hill, ann/lan¦LIBB¦t12¦1001 $aHill, Ann¦24501$aÉlan‡\
a b c///LIBB.t13¦LIBB¦t13¦24500$aA, b, c‡\
hill, ann/a b c¦LIBB¦t13¦1001 $aHill, Ann¦24500$aA, b, c‡\
oeuvres daesop///LIBB.t14¦LIBB¦t14¦24500$aŒuvres [d'Æsop]‡\
hill, ann/oeuvres daesop¦LIBB¦t14¦1001 $aHill, Ann¦24500$aŒuvres [d'Æsop]‡\
東京///LIBB.t15¦LIBB¦t15¦24500$a東京‡\
hill, ann/東京¦LIBB¦t15¦1001 $aHill, Ann¦24500$a東京‡\
cat dog///LIBB.t16¦LIBB¦t16¦24500$aCat$aDog‡\
hill, ann/cat dog¦LIBB¦t16¦1001 $aHill, Ann¦24500$aCat$aDog‡\
the 1 cat///LIBB.t17¦LIBB¦t17¦24504$nThe 1$aThe cat‡\
hill, ann/the 1 cat¦LIBB¦t17¦1001 $aHill, Ann¦24504$nThe 1$aThe cat‡\
///0.a b¦0¦a b¦24500$a‡\
//day¦ZZZZZZZZZZZZZZZZ¦w1¦24500$a¦7001 $aDay‡\
";

/// The name, and the field.
pub(crate) const NAMES: &str = "\
hill, ann ii dr 1900 annabel¦1001 $aHill, Ann,$bII$cDr.$d1900-$eauthor$n2nd$q(Annabel)$tRed ships$kSelections‡\
dvorak, antonin 1841 1904¦1001 $aDvořák, Antonín,$d1841-1904.‡\
1990 x, y p q¦1001 $d1990$aX, Y$aP, Q$n3‡\
¦1001 $a...‡\
¦1001 $tRed ships‡\
hill, ann ii dr 1900 2nd¦1101 $aHill, Ann,$bII$cDr.$d1900-$eauthor$n2nd$q(Annabel)$tRed ships$kSelections‡\
dvorak, antonin 1841 1904¦1101 $aDvořák, Antonín,$d1841-1904.‡\
1990 x, y p q 3¦1101 $d1990$aX, Y$aP, Q$n3‡\
¦1101 $a...‡\
¦1101 $tRed ships‡\
hill, ann ii dr 1900 2nd¦1111 $aHill, Ann,$bII$cDr.$d1900-$eauthor$n2nd$q(Annabel)$tRed ships$kSelections‡\
dvorak, antonin 1841 1904¦1111 $aDvořák, Antonín,$d1841-1904.‡\
1990 x, y p q 3¦1111 $d1990$aX, Y$aP, Q$n3‡\
¦1111 $a...‡\
¦1111 $tRed ships‡\
hill, ann ii dr 1900 annabel¦7001 $aHill, Ann,$bII$cDr.$d1900-$eauthor$n2nd$q(Annabel)$tRed ships$kSelections‡\
dvorak, antonin 1841 1904¦7001 $aDvořák, Antonín,$d1841-1904.‡\
1990 x, y p q¦7001 $d1990$aX, Y$aP, Q$n3‡\
¦7001 $a...‡\
¦7001 $tRed ships‡\
hill, ann ii dr 1900 2nd¦7101 $aHill, Ann,$bII$cDr.$d1900-$eauthor$n2nd$q(Annabel)$tRed ships$kSelections‡\
dvorak, antonin 1841 1904¦7101 $aDvořák, Antonín,$d1841-1904.‡\
1990 x, y p q 3¦7101 $d1990$aX, Y$aP, Q$n3‡\
¦7101 $a...‡\
¦7101 $tRed ships‡\
hill, ann ii dr 1900 2nd¦7111 $aHill, Ann,$bII$cDr.$d1900-$eauthor$n2nd$q(Annabel)$tRed ships$kSelections‡\
dvorak, antonin 1841 1904¦7111 $aDvořák, Antonín,$d1841-1904.‡\
1990 x, y p q 3¦7111 $d1990$aX, Y$aP, Q$n3‡\
¦7111 $a...‡\
¦7111 $tRed ships‡";
